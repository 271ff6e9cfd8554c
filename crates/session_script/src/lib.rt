//! The script of an open session: a command per line, and a reply to each.
//!
//! [`command_of`] reads what a line asks for: its verb, and the words after it. `specs/Commands.antt` defines it, and
//! `specs/ScriptGrammar.antt` how each command is written; [`laws`] states that a line asks for the command that it is written as.
//! [`serve`] runs a script; `specs/Replies.antt` defines what is done and replied.
#![tactic(auto)]

mod command;
mod commands;
mod edits;
mod fault;
pub mod laws;
mod performing;
mod replies;
mod running;
mod serving;
mod statement;
mod verb;
mod words;

pub use can_session::{Edit, Keep, KeyedOptions, LineCount, Options, Refusal, Session};
pub use command::Command;
pub use commands::command_of;
pub use fault::SessionFault;
pub use running::{keyed_run, session_run};
pub use serving::serve;
pub use verb::Verb;
