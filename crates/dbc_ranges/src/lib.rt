//! The byte ranges of the parts of a statement.
//!
//! Reading a database reports where its statements and signals begin, but not where their parts are. [`range_of`] reads the tokens
//! of one of them once more, up to the part that is asked for.
#![tactic(auto)]

mod items;
pub mod laws;
mod part;
mod range;

pub use part::{DescribedValue, Part, range_of};
pub use range::Range;
