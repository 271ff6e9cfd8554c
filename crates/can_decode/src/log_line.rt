//! Lines that were read.
ghost use Rattle.std.specs.Prelude.{◌≡◌, Some, None, option_map, if◌then◌else◌};
ghost use Rattle.can_frames.specs.Frames.{body_of, frame_of};
ghost use Rattle.can_decode.specs.Choices.{data_number, number_of_data};

use can_frames::{Frame, fill_frame};
use std::marker::Model;

/// A line of a log, and the frame that was read in it, if it has one. Contracts see the line.
#[derive(Drop)]
pub struct LogLine<'l> {
    line: &'l [u8],
    // Whether the line has a frame. Without one, what is in its place is meaningless.
    is_frame: bool,
    frame: Frame,
}

impl<'l> Model for LogLine<'l> {
    ghost use Rattle.std.specs.Prelude.{◌≡◌, ℕ, List, Some, None, if◌then◌else◌};
    ghost use Rattle.can_frames.specs.Frames.{body_of, frame_of};

    ghost Value = { List ℕ };

    ghost view = { λ a. a.line.now };

    ghost invariant = { λ a. (if a.is_frame then Some a.frame else None) ≡ frame_of (body_of a.line.now) };
}

fn number_of_data(frame: &Frame) -> Option<u32>
    ensures { result ≡ number_of_data frame.now }
{
    if frame.is_data() {
        Some(frame.number())
    } else {
        None
    }
}

impl<'l> LogLine<'l> {
    /// Reads a line.
    pub fn of(line: &'l [u8]) -> LogLine<'l>
        ensures { result ≡ line.now }
    {
        let mut frame = Frame::empty();
        let is_frame = fill_frame(&mut frame, line);
        LogLine {
            line,
            is_frame,
            frame,
        }
    }

    /// The line.
    pub fn bytes(&self) -> &'l [u8]
        ensures { result.now ≡ self.now }
    {
        self.line
    }

    /// Its frame.
    pub fn frame(&self) -> Option<&Frame>
        ensures { option_map (λ frame. frame.now) result ≡ frame_of (body_of self.now) }
    {
        if self.is_frame {
            Some(&self.frame)
        } else {
            None
        }
    }

    /// The CAN identifier of its frame, if that is a data frame, as a database has it.
    #[tactic(auto, unfolding(crate::specs::Choices::data_number))]
    pub fn number(&self) -> Option<u32>
        ensures { result ≡ data_number self.now }
    {
        let frame = self.frame()?;
        number_of_data(frame)
    }
}
