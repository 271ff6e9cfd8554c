//! Lines that are decoded by what is shown of a database.
ghost use Rattle.std.specs.Prelude.{◌≡◌, IfOk};
ghost use Rattle.can_layout.specs.Meters.{with_line};
ghost use Rattle.can_decode.specs.DecodedLines.{bus_line};
ghost use Rattle.session_database.specs.CompiledMessage.{Raised};
ghost use Rattle.session_log.specs.Logs.{bytes_of, IsNumbered, IsDecoded};

use can_decode::{Bus, LogLine, Short};
use can_layout::Meter;
use dbc_text_buffer::TextBuffer;
use dbc_values::Memory;
use session_database::CompiledDatabase;
use session_log::Line;
use smallvec::SmallVec;
use std::marker::Model;

/// A bus whose lines are decoded by what is shown of its database.
#[derive(Drop)]
pub(crate) struct CompiledBus<'a> {
    /// What is shown of the database.
    pub shown: &'a CompiledDatabase,
    /// How truncated frames are decoded.
    pub short: Short,
}

impl<'a> Model for CompiledBus<'a> {
    ghost use Rattle.can_decode.specs.DecodedLines as lines;

    ghost Value = { lines.Bus };

    ghost view = { λ a. record { database = a.shown.now; short = a.short } };
}

impl<'a> CompiledBus<'a> {
    /// The decoded text of a line, made in `buffer`. The meter counts it, even if memory runs out.
    pub(crate) fn decode(
        &self,
        buffer: &mut TextBuffer,
        line: &LogLine<'_>,
        meter: &mut Meter,
    ) -> Result<Vec<u8>, Memory>
        ensures text { IfOk result (λ text. text.items ≡ bus_line self.now line.now) }
        ensures counted { meter.new ≡ with_line meter.old }
    {
        let bus = Bus {
            database: self.shown.database(),
            short: self.short,
        };
        bus.renew_frame_at(buffer, self.shown.chosen(line), line, meter)?;
        buffer.to_vec()
    }

    /// A line with its decoded text, which is made in `buffer`.
    pub(crate) fn line(
        &self,
        buffer: &mut TextBuffer,
        line: &[u8],
        meter: &mut Meter,
    ) -> Result<Line, Memory>
        ensures bytes { IfOk result (λ made. bytes_of made ≡ line.now) }
        ensures numbered { IfOk result (λ made. IsNumbered made) }
        ensures decoded { IfOk result (λ made. IsDecoded self.now made) }
        ensures lines { Raised 0 1 meter.old meter.new }
    {
        let read = LogLine::of(line);
        let number = read.number();
        let bytes = SmallVec::from_slice(buffer.allocator(), line)?;
        let decoded = self.decode(buffer, &read, meter)?;
        Ok(Line {
            bytes,
            number,
            decoded,
        })
    }
}
