//! Frames of a database's messages, and the log of a bus that sends them, made as it is pulled.
ghost use Rattle.std.specs.Prelude.{◌≤◌, None, vec_len};
ghost use Rattle.byte_devices.specs.Device.{Unread};

use crate::chance::Chance;
use byte_devices::{Broken, Source};
use dbc_records::Message;
use itoa::Buffer;
use std::alloc::{AllocError, Global};

const LINES_IN_BLOCK: u32 = 1024;

const DIGITS: &[u8; 16] = b"0123456789ABCDEF";

const EXTENDED: u32 = 0x8000_0000;
// the address in a database that represents any sender of a J1939 parameter group
const NULL_ADDRESS: u32 = 0xFE;
// a word whose first byte is below 32
const SMALL_FIRST: u64 = !0xE0;

/// What the frames of a message begin with, and how many bytes of data they have.
#[derive(Drop)]
pub struct Frame {
    head: String,
    has_any_source: bool,
    mark: &'static [u8],
    length: u16,
}

impl Frame {
    /// The frames of a message.
    pub fn of(alloc: Global, message: &Message) -> Result<Frame, AllocError> {
        let number = message.head.number;
        let is_extended = number >= EXTENDED;
        let identifier = number % 0x2000_0000;
        let has_any_source = is_extended && identifier % 256 == NULL_ADDRESS;
        let head = if has_any_source {
            format!(in alloc; " can0 {:06X}", identifier / 256)?
        } else if is_extended {
            format!(in alloc; " can0 {identifier:08X}")?
        } else {
            format!(in alloc; " can0 {identifier:03X}")?
        };
        let length = message.head.size.min(64);
        Ok(Frame {
            head,
            has_any_source,
            mark: if length > 8 { b"##1" } else { b"#" },
            length,
        })
    }
}

/// The frames of these messages.
pub fn frames_of(alloc: Global, messages: &[Message]) -> Result<Vec<Frame>, AllocError> {
    let mut frames = Vec::new(alloc);
    for message in messages {
        frames.push(Frame::of(alloc, message)?)?;
    }
    Ok(frames)
}

fn push_byte(text: &mut Vec<u8>, byte: u8) -> Result<(), AllocError> {
    let digits = [
        DIGITS[usize::from(byte / 16)],
        DIGITS[usize::from(byte % 16)],
    ];
    text.extend_from_slice(&digits)
}

// Adds this many bytes of data, the first of them small in most frames, as multiplexors are.
fn push_data(text: &mut Vec<u8>, chance: &mut Chance, length: u16) -> Result<(), AllocError> {
    let mut left = usize::from(length);
    let first = chance.word();
    let mut word = if first >> 61 == 0 {
        first
    } else {
        first & SMALL_FIRST
    };
    for _ in 0..length.div_ceil(8) {
        for byte in word.to_le_bytes().iter().take(left) {
            push_byte(text, *byte)?;
        }
        left = left.saturating_sub(8);
        if left > 0 {
            word = chance.word();
        }
    }
    Ok(())
}

// The lines of a log, made one after another, and then a text.
#[derive(Drop)]
struct Lines<'a> {
    frames: &'a [Frame],
    chance: Chance,
    prefix: &'a [u8],
    tail: &'a [u8],
    left: u32,
    micros: u64,
}

impl<'a> Lines<'a> {
    // Chooses a frame, the first ones more often than the last.
    fn choose(&mut self) -> Option<&'a Frame> {
        let count = self.frames.len();
        if count == 0 {
            return None;
        }
        let one = self.chance.below(count);
        let other = self.chance.below(count);
        self.frames.get(one.min(other))
    }

    fn push_stamp(&mut self, block: &mut Vec<u8>) -> Result<(), AllocError> {
        let gap = 20 + self.chance.below(400) as u64;
        self.micros = self.micros.wrapping_add(gap);
        let mut seconds = Buffer::new();
        let mut fraction = Buffer::new();
        block.extend_from_slice(b"(")?;
        block.extend_from_slice(seconds.format(self.micros / 1_000_000).as_bytes())?;
        block.extend_from_slice(b".")?;
        // (a one before the six digits keeps their zeros)
        let digits = fraction
            .format(1_000_000 + self.micros % 1_000_000)
            .as_bytes();
        if let [_, digits @ ..] = digits {
            block.extend_from_slice(digits)?;
        }
        block.extend_from_slice(b")")
    }

    fn push_line(&mut self, block: &mut Vec<u8>) -> Result<(), AllocError> {
        let Some(frame) = self.choose() else {
            return Ok(());
        };
        block.extend_from_slice(self.prefix)?;
        self.push_stamp(block)?;
        block.extend_from_slice(frame.head.as_bytes())?;
        if frame.has_any_source {
            let source = self.chance.below(256);
            push_byte(block, source as u8)?;
        }
        block.extend_from_slice(frame.mark)?;
        push_data(block, &mut self.chance, frame.length)?;
        block.extend_from_slice(b"\n")
    }

    // Makes the next lines, and after the last one the text.
    fn fill(&mut self, block: &mut Vec<u8>) -> Result<(), AllocError> {
        for _ in 0..LINES_IN_BLOCK {
            if self.left == 0 {
                block.extend_from_slice(self.tail)?;
                self.tail = b"";
                return Ok(());
            }
            self.left -= 1;
            self.push_line(block)?;
        }
        Ok(())
    }
}

/// A log, made as it is pulled, and then a text.
#[derive(Drop)]
pub struct Traffic<'a> {
    lines: Lines<'a>,
    block: Vec<u8>,
    at: usize,
    pulls_left: u64,
    ghost at_in: { at ≤ vec_len block },
}

impl<'a> Traffic<'a> {
    /// This many lines, each with a prefix, of these frames, and then a text.
    pub fn new(
        alloc: Global,
        frames: &'a [Frame],
        chance: Chance,
        lines: u32,
        (prefix, tail): (&'a [u8], &'a [u8]),
    ) -> Traffic<'a> {
        Traffic {
            lines: Lines {
                frames,
                chance,
                prefix,
                tail,
                left: lines,
                micros: 1_700_000_000_000_000,
            },
            block: Vec::new(alloc),
            at: 0,
            pulls_left: u64::MAX,
        }
    }
}

impl Source for Traffic<'_> {
    ghost unread = { λ s. record { bytes = None; failures = 0; patience = s.pulls_left } };

    fn pull(&mut self, piece: &mut [u8]) -> Result<usize, Broken> {
        if self.pulls_left == 0 {
            return Ok(0);
        }
        if self.at == self.block.len() {
            self.at = 0;
            self.block.clear();
            // (if memory runs out the log ends early, and the digest is another)
            let _ = self.lines.fill(&mut self.block);
        }
        let rest = &self.block[self.at..];
        let count = rest.len().min(piece.len());
        piece[..count].copy_from_slice(&rest[..count]);
        self.at += count;
        self.pulls_left -= 1;
        Ok(count)
    }
}
