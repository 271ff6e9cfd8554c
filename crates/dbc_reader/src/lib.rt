//! Reading of a DBC text: the database that its tokens spell, and the fault that reading ends with.
//!
//! [`read`] and [`read_one`] return what the tokens spell by `specs/Spelling.antt`, or the first fault by `specs/Pattern.antt`. A
//! law of `dbc_read` states that a text has one or the other. [`read_with_starts`] also reports where each statement begins.
#![tactic(auto)]

mod attributes;
mod classes;
mod cursor;
mod kept;
mod keyword;
pub mod laws;
mod located;
mod messages;
mod numerals;
mod parts;
mod reader;
mod start;
mod statement;
mod statements;
mod stopped;
mod tables;
mod tags;

pub use classes::{has_mark, has_name, has_piece, has_string, has_symbol, has_word};
pub use located::read_with_starts;
pub use reader::{read, read_one};
pub use start::{Start, Starts};
pub use statement::Statement;
pub use tags::tag;
