//! Texts that are written often: on one line whatever they hold, and cached, so that appending one costs little.
#![tactic(auto)]

mod digits;
mod eight_digits;
mod ready;
mod showing;
mod small_number;
mod text_buffer;

pub use digits::Digits;
pub use eight_digits::EightDigits;
pub use ready::ReadyText;
pub use showing::push_shown;
pub use small_number::push_small_number;
pub use text_buffer::{TextBuffer, push_bytes};
