//! Where the bits of signals are in the data of a message, what they mean there, and how they are drawn.
//!
//! A [`Field`] is a start bit, a length and a byte order. [`Steps`] finds its raw value a byte at a time; `specs/Bits.antt` defines
//! that value bit by bit.
#![tactic(auto)]

mod cell;
mod field;
mod grid;
pub mod laws;
mod step;
mod steps;
mod table;
#[cfg(test)]
mod tests;
mod window;

pub use field::{Field, fields_of, position};
pub use grid::{push_grid, push_right};
pub use step::{Shift, Step};
pub use steps::Steps;
pub use window::Window;
