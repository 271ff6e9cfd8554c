//! The law of the open session.
//!
//! A session is opened on a text and is given commands. Its state is then the result of a fold over them, each answer is the
//! defined one, and all that it shows is what reading its printed database from scratch, and decoding its log line by line, would
//! show. [`Ran`] states all of this in one clause, for any text and any commands. [`run_all`] is about the state and the answers,
//! [`show`] about all that a session returns by reference, [`serve_text`] about a script, and [`laws`] about the definitions alone.
#![tactic(auto)]

mod command;
pub mod laws;
mod ran;
mod running;
mod served;
mod showing;

pub use command::Command;
pub use ran::Ran;
pub use running::{do_all, run_all};
pub use served::{Served, serve_text};
pub use showing::{SessionView, show};
