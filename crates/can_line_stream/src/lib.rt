//! A source cut into lines, each of which is passed on: to a handler, which may write for it, or to a writer of one text per line.
//!
//! A log is decoded by [`stream_texts`]; a script of commands, whose state each line changes, is run by [`stream_lines`].
#![tactic(auto)]

mod fault;
mod handler;
mod streaming;
mod texts;

pub use fault::StreamFault;
pub use handler::Handler;
pub use streaming::stream_lines;
pub use texts::{LineText, stream_texts};
