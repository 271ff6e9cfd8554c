//! Log lines in, decoded lines out.
//!
//! [`decode_line`] decodes the frame of a line by a database and the plans of its messages.
//!
//! [`choose`] determines which message a frame goes to, by its CAN identifier: the one with exactly that identifier, otherwise that
//! of its J1939 parameter group. [`MessageIndex`] has the first message of each CAN identifier and parameter group,
//! [`IndexedMessages`] looks it up, and [`CachedSearch`] caches what was found for the identifiers of a log.
#![tactic(auto)]

mod cached_search;
mod choice;
mod decoding;
mod first_choices;
mod frame_text;
mod indexed_messages;
mod j1939;
mod known_line;
pub mod laws;
mod line;
mod listing;
mod log_line;
mod message;
mod message_index;
mod message_search;
mod short;
mod stream;
mod target;
mod value;

pub use cached_search::CachedSearch;
pub use can_entries::group_number;
pub use can_frames::{Frame, Kind, read_frame};
pub use can_line_stream::StreamFault;
pub use choice::choose;
pub use decoding::Decoding;
pub use indexed_messages::IndexedMessages;
pub use j1939::J1939;
pub use known_line::{Bus, decode_at};
pub use line::{Finder, decode_line};
pub use listing::{SignalText, push_signals};
pub use log_line::LogLine;
pub use message::push_number;
pub use message_index::MessageIndex;
pub use message_search::{Choice, LinearSearch, MessageSearch, choice_at, message_at};
pub use short::Short;
pub use stream::{caching, decode_stream, decode_stream_by, stream_counted};
pub use target::Target;
pub use value::push_scaled;
