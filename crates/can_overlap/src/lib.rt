//! Signals of a message that share a bit and can be active at once.
//!
//! An [`Occupancy`] is a table that has at each bit position the indexes of the signals with a bit there. Once the signals of a
//! message are [`Marked`] in it, the signals that share a bit with each of them are read off at its own bit positions.
#![tactic(auto)]

mod agreeing;
mod apart;
mod chain_index;
mod indexes;
pub mod laws;
mod mux_paths;
mod occupancy;
mod pair;
mod pairing;
mod ranges;
mod sorted_link;
mod table;
#[cfg(test)]
mod tests;

pub use agreeing::together;
pub use apart::are_disjoint_in_sequence;
pub use occupancy::{Marked, Occupancy};
pub use pair::Pair;
