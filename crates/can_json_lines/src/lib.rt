//! Log lines in, JSON objects out.
//!
//! [`json_stream_by`] writes the object of each line of a log. It contains what the decoded line of `can_decode` contains.
//!
//! Texts that don't depend on the log are prepared before its lines are written: [`Prepare`] defines what is prepared of a
//! message and of each of its signals, [`Prepared`] holds it for all messages, and a [`PreparedTarget`] is the message that a frame
//! goes to, with what is prepared of it.
#![tactic(auto)]

mod finder;
mod flags;
mod frame;
mod interface;
mod keys;
mod line;
mod message_texts;
mod plan_texts;
mod prepare;
mod prepared;
mod prepared_target;
mod signals;
mod stream;
mod words;

pub use finder::PreparedFinder;
pub use message_texts::MessageTexts;
pub use plan_texts::RowTexts;
pub use prepare::Prepare;
pub use prepared::{Prepared, prepared_finder};
pub use prepared_target::PreparedTarget;
pub use stream::{JsonDecoding, json_stream_by};
pub use words::{Words, words_of};
