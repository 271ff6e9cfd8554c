//! The log of an open session: its lines, each with its decoded text, and an index of them by the CAN identifiers of their frames.
//!
//! An edit of the database has at most two CAN identifiers ([`edit_numbers`]). Messages of other CAN identifiers keep their plans
//! and diagrams, and lines whose frames none of these concerns keep their decoded texts; [`reach_laws`] states this of the
//! definitions alone.
//!
//! [`Log::touched`] finds the lines that an edit's CAN identifiers touch without reading any line again, and [`Log::exchange`]
//! gives them new texts without allocating.
//!
//! The index is a hash map. [`Log::keyed`] hashes with keys that the caller has drawn: use it for untrusted lines. [`Log::new`]
//! hashes the same way in each run, so identifiers can be crafted that make each line as slow as all lines before it; it is for
//! tests and for your own lines.
#![tactic(auto)]

mod keyed_serials;
mod line;
mod log;
mod log_hash;
mod log_index;
mod numbers;
pub mod reach_laws;
mod touching;

pub use line::{Line, RedecodedLine};
pub use log::Log;
pub use numbers::{Numbers, edit_numbers, is_among};
