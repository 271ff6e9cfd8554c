//! The model of a CAN database as a DBC file describes it: its records and their values, the printer, and the devices that
//! texts come from and go to.
//!
//! The printer is here; the rest is in crates below and is re-exported: values in `dbc_values`, records in
//! `dbc_records`, devices in `byte_devices`.
#![tactic(auto)]

mod printing;

pub use byte_devices::{Broken, FromRead, FromWrite, Out, Sink, Source, WriteFault, limp, put_all};
pub use dbc_records::{
    AttrDef, AttrDefault, AttrRow, AttrValue, Comment, Database, Entry, FloatRow, Form, Head, Kept,
    Limits, Message, MuxRow, Object, Range, Signal, TableRow, Tag, Target, ValueRow,
};
pub use dbc_values::{
    Checked, Copied, Decimal, List, Memory, Name, Pieces, Scale, Symbol, Text, Whole, digits_len,
    is_kept_word, is_letter, is_name, is_number, is_piece, is_string, is_symbol, is_text, is_word,
    is_word_byte, laws, same, whole_of,
};
pub use printing::print;
