//! The records of a CAN database as a DBC file describes them, and their printed forms.
//!
//! Every value of a type of this crate keeps the bounds of the format: a [`Head`] has at most 1,785 bytes. So you need not test it
//! again. The canonical text of each is in `specs/CanonicalText.antt`.
#![tactic(auto)]

mod attribute;
mod byte_order;
mod comment;
mod database;
mod database_entry;
mod definition;
mod entries;
mod entry;
mod entry_key;
mod float_row;
mod head;
mod kept;
mod message;
mod mux_row;
mod numbers;
mod order;
mod range_index;
mod signal;
mod table_row;
mod tag;
mod target;
mod value_row;
mod value_type;

pub use attribute::{AttrDefault, AttrRow, AttrValue};
pub use byte_order::ByteOrder;
pub use comment::Comment;
pub use database::Database;
pub use database_entry::{DatabaseEntry, EntryKind, EntryVisitor};
pub use definition::{AttrDef, Form, Limits, Object};
pub use entries::Entries;
pub use entry::Entry;
pub use entry_key::{EntryKey, EntryKeyRef, TargetRef};
pub use float_row::FloatRow;
pub use head::Head;
pub use kept::Kept;
pub use message::Message;
pub use mux_row::{MuxRow, Range};
pub use numbers::Numbers;
pub use order::{EntryOrder, entry_order};
pub use signal::Signal;
pub use table_row::TableRow;
pub use tag::Tag;
pub use target::Target;
pub use value_row::ValueRow;
pub use value_type::ValueType;
