//! The entries of a database that are about a signal, found by message ID and signal name; with them the multiplexing chain of each
//! signal, and the parameter groups of messages.
//!
//! [`Lookup`] finds entries: a database by searching them, an [`Indexed`] database by its keys. An [`Index`] has the first entry of
//! each key, of [`Keyed`] entries of any kind.
//!
//! [`message_walks`] finds the [`Walk`] of each signal of a message, from its own multiplexor (switch) up to one that isn't
//! multiplexed: a chain of [`Link`]s, each with the raw values of the multiplexor for which the signal below is present, or why
//! there is no chain. It reads the message and, through [`MessageRows`], the entries of its CAN identifier.
#![tactic(auto)]

pub mod chain_laws;
mod format;
mod format_index;
mod group;
mod index;
mod indexed;
pub mod laws;
mod link;
mod lookup;
mod message_rows;
mod mux_parent;
mod row;
mod switches;
mod walk;
mod walks;

pub use group::{group_in, group_number, group_of, is_bad_number, is_extended};
pub use index::Index;
pub use indexed::Indexed;
pub use link::Link;
pub use lookup::Lookup;
pub use message_rows::MessageRows;
pub use mux_parent::MuxParent;
pub use row::Keyed;
pub use switches::mux_parents_of;
pub use walk::{Walk, mux_parent_at, walk_of};
pub use walks::message_walks;
