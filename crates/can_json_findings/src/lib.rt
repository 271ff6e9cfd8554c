//! Diagnostics, faults and names of a database as JSON objects, each with the byte ranges of the parts of the text that it is
//! about.
//!
//! [`finding_line`] makes the line of one finding: an object and an LF; [`fault_lines`] makes those of the faults for which a text
//! is rejected. [`location_lines`] makes those of all names in a text: of messages, senders, signals, receivers and entries.
#![tactic(auto)]

mod entry_locations;
mod fault;
mod finding;
mod location;
mod message_locations;
mod ranges;
mod subject;

pub use entry_locations::location_lines;
pub use fault::{FaultLines, fault_lines};
pub use finding::finding_line;
