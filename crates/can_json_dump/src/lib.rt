//! A database as JSON objects, a line each: its messages, and one object for everything else.
#![tactic(auto)]

mod annotations;
mod by_number;
mod dump;
mod message;
mod rest;
mod signal;
mod subject;

pub use annotations::Annotations;
pub use by_number::{ByNumber, Rows, Targeted};
pub use dump::Dump;
pub use subject::Subject;
