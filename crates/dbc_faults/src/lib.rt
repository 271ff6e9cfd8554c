//! The faults of a text: where each is, what was found, what would have been allowed, and the usual reason in real files with its
//! remedy.
//!
//! [`fault_report`] reports the first fault, and those after it that can be guessed. [`first_fault`] and [`guessed_faults`] give
//! its parts.
//!
//! [`fault_location`] finds where the first fault is, and the token classes that would have been allowed there. It steps through
//! the tokens with the grammar's pattern ([`pattern_from`]): [`Derivative::step`] takes a token and keeps what it leaves of the
//! pattern, [`Derivative::firsts`] returns the classes of tokens that may come next. Patterns, classes and what was seen are those
//! by which `dbc_reader` defines the first fault of a text.
#![tactic(auto)]

mod class;
mod classes;
mod derivative;
mod details;
mod finding;
mod going_on;
mod grammar;
mod guesses;
mod keyword;
pub mod laws;
mod location;
mod marked_line;
mod pattern;
mod reason;
mod report;
mod seen;
mod words;

pub use class::Class;
pub use derivative::Derivative;
pub use details::{FaultDetails, first_fault, guessed_faults};
pub use grammar::{Beginning, pattern_from};
pub use keyword::Keyword;
pub use location::{FaultLocation, fault_location};
pub use pattern::{Pattern, firsts, may_end};
pub use reason::Reason;
pub use report::{Report, fault_report};
pub use seen::Seen;
