//! The session's lines, and texts that replace older ones.
ghost use Rattle.std.specs.Prelude.{◌≡◌, ◌<◌, All, map, length};
ghost use Rattle.can_decode.specs.DecodedLines.{Bus};
ghost use Rattle.session_log.specs.Logs.{bytes_of, IsNumbered, IsDecoded, Completes};

use smallvec::SmallVec;
use std::collections::VecDeque;

/// A kept line and its decoded text.
#[derive(Drop)]
pub struct Line {
    /// The line. Up to 64 bytes are stored inline.
    pub bytes: SmallVec<u8, 64>,
    /// The CAN identifier of its frame, if that is a data frame.
    pub number: Option<u32>,
    /// Its decoded text.
    pub decoded: Vec<u8>,
}

/// A line decoded again: its index, and its new text.
#[derive(Drop)]
pub struct RedecodedLine {
    /// The line's index.
    pub position: usize,
    /// Its decoded text.
    pub text: Vec<u8>,
}

/// Gives each text to the line at its index. It allocates nothing.
pub(crate) fn exchange(lines: &mut VecDeque<Line>, mut redecoded: Vec<RedecodedLine>)
    requires { All (λ text. text.position < length lines.old.items) redecoded.items }
    ensures lines { map bytes_of lines.new.items ≡ map bytes_of lines.old.items }
    ensures numbered { All IsNumbered lines.old.items → All IsNumbered lines.new.items }
    ensures decoded { (bus : Bus) → Completes bus lines.old.items redecoded.items → All (IsDecoded bus) lines.new.items }
{
    while let Some(RedecodedLine { position, text }) = redecoded.pop() {
        lines[position].decoded = text;
    }
}
