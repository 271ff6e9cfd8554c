//! Which lines of a log are kept: all of them, or a number of the last ones.
#![tactic(auto)]

mod keep;

pub use keep::{Keep, LineCount};
