//! An edit of a session's database and of the lines that it touches.
ghost use Rattle.std.specs.Prelude.{◌≡◌, ◌<◌, All, IfOk, length, count_by, map};
ghost use Rattle.session_log.specs.Touched.{line_touched};
ghost use Rattle.session_log.specs.Logs.{bytes_of, TextsAt, IsTextOf, Completes};
ghost use Rattle.session_database.specs.Acceptance.{numbers_of};
ghost use Rattle.session_database.specs.CompiledMessage.{messages_touched, Raised};
ghost use Rattle.can_session.specs.Sessions.{AreDecoded};

use crate::compiled_bus::CompiledBus;
use can_decode::{LogLine, Short};
use can_layout::Meter;
use dbc_text_buffer::TextBuffer;
use dbc_values::Memory;
use session_database::{Accepted, CompiledDatabase};
use session_log::reach_laws::untouched_lines_stay;
use session_log::{Log, RedecodedLine};
use std::alloc::Global;

// The text of the line at a position, made in `buffer`.
fn fresh_at(
    buffer: &mut TextBuffer,
    bus: &CompiledBus<'_>,
    log: &Log,
    position: usize,
    meter: &mut Meter,
) -> Result<RedecodedLine, Memory>
    requires { position < length log.now }
    ensures position { IfOk result (λ redecoded. redecoded.position ≡ position) }
    ensures text { IfOk result (λ redecoded. IsTextOf bus.now log.now redecoded) }
    ensures lines { Raised 0 1 meter.old meter.new }
{
    let line = LogLine::of(log.line(position).bytes.as_slice());
    let text = bus.decode(buffer, &line, meter)?;
    Ok(RedecodedLine { position, text })
}

// The texts of the lines at the positions.
fn decode_positions(
    alloc: Global,
    bus: &CompiledBus<'_>,
    log: &Log,
    positions: &[usize],
    meter: &mut Meter,
) -> Result<Vec<RedecodedLine>, Memory>
    requires { All (λ position. position < length log.now) positions.now }
    ensures texts { IfOk result (λ redecoded. TextsAt bus.now log.now positions.now redecoded.items) }
    ensures lines { Raised 0 (length positions.now) meter.old meter.new }
{
    let mut buffer = TextBuffer::new(alloc);
    let mut redecoded = Vec::new(alloc);
    for position in positions {
        redecoded.push(fresh_at(&mut buffer, bus, log, *position, meter)?)?;
    }
    Ok(redecoded)
}

/// An accepted edit with the log of the session, whose lines have their texts in the database before the edit.
#[derive(Drop)]
pub(crate) struct LoggedEdit<'a> {
    /// The edit.
    pub(crate) accepted: Accepted<'a>,
    /// The log.
    pub(crate) log: &'a Log,
    /// How truncated frames are decoded.
    pub(crate) short: Short,
    ghost decoded: { AreDecoded (record { database = accepted.before; short = short }) log.now },
}

impl<'a> LoggedEdit<'a> {
    /// What is shown of the database after the edit, and the texts there of the lines that the edit touches: with these in their
    /// places every line has its text.
    pub(crate) fn made(
        self,
        alloc: Global,
        meter: &mut Meter,
    ) -> Result<(CompiledDatabase, Vec<RedecodedLine>), Memory>
        ensures shown { IfOk result (λ made. made.0 ≡ self.entry.accepted.after) }
        ensures redecoded { IfOk result (λ made. Completes
            (record { database = self.entry.accepted.after; short = self.entry.short }) self.entry.log.now made.1.items) }
        ensures made { Raised (messages_touched (numbers_of self.entry.accepted) self.entry.accepted.after)
            (count_by (line_touched (numbers_of self.entry.accepted)) (map bytes_of self.entry.log.now)) meter.old meter.new }
    {
        untouched_lines_stay();
        let applied = self.accepted.applied(alloc, meter)?;
        let positions = self.log.touched(alloc, applied.numbers())?;
        let bus = CompiledBus {
            shown: applied.shown(),
            short: self.short,
        };
        let redecoded = decode_positions(alloc, &bus, self.log, positions.as_slice(), meter)?;
        Ok((applied.into_shown(), redecoded))
    }
}
