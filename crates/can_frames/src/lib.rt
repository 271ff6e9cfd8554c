//! The frames of a log's lines, as `candump -L` writes them: classic data frames, FD data frames, remote frames and error frames,
//! with standard (11-bit) or extended (29-bit) identifiers.
//!
//! [`read_frame`] reads the frame of one line. It allocates nothing, and only checks what a line contains in addition to its frame:
//! the stamp and the interface.
#![tactic(auto)]

mod form;
mod frame;
mod identifier;
pub mod laws;
mod line;
mod pairs;
mod reading;

pub use frame::{Frame, Kind};
pub use line::{body_of, split_word};
pub use reading::{fill_frame, read_frame};
