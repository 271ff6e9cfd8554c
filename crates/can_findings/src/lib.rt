//! The diagnostics of a database, each with where the statements that it is about begin, and with its remedy.
//!
//! [`all_findings`] finds what `can_check` finds, message by message and entry by entry, so it knows the index of each in the
//! database; `dbc_reader` reports where the statements that it read begin. [`remedy`] is what to do about a code, and
//! [`write_explained`] writes findings with their remedies.
#![tactic(auto)]

mod beginnings;
mod database_findings;
mod explaining;
mod finding;
pub mod laws;
mod message_locations;
mod remedies;
mod row_locations;
mod row_starts;

pub use beginnings::{after_first, first_start, parted};
pub use database_findings::all_findings;
pub use explaining::write_explained;
pub use finding::{Finding, Location};
pub use remedies::remedy;
