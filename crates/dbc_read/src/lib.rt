//! Reading of a DBC text: how it is cut into tokens, the database that they spell, and the fault that reading ends with.
//!
//! [`tokens`] gives the tokens of a text, [`read`] and [`read_one`] give what they spell, or the first fault; [`laws`] states that
//! a text has one or the other. These are in `dbc_tokens` and `dbc_reader`. This crate covers printing and reading together:
//! [`print_laws`] states that what is printed is spelled, and [`reread`] reads what was printed.
#![tactic(auto)]

pub mod laws;
pub mod print_laws;
mod rereading;

pub use dbc_reader::{Statement, read, read_one};
pub use dbc_tokens::{Cause, Kind, Next, ReadFault, Token, Tokens, tokens};
pub use rereading::reread;
