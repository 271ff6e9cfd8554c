//! Findings: diagnostics with their locations in the text.
ghost use Rattle.byte_devices.specs.Outs.{Sends};
ghost use Rattle.can_findings.specs.Remedies.{number_text, location_text};

use byte_devices::{Out, Sink, WriteFault};
use can_diagnostics::Diagnostic;
use dbc_reader::Start;
use itoa::Buffer;

/// Where the statements, or signals, that a diagnostic is about begin.
#[derive(Clone, Copy, Debug, PartialEq, Eq)]
pub enum Location {
    /// One begins there.
    One(Start),
    /// Two begin there.
    Both(Start, Start),
}

/// A diagnostic, and the location in the text of the database that it is about.
#[derive(Drop)]
pub struct Finding {
    /// The location.
    pub location: Location,
    /// The diagnostic.
    pub diagnostic: Diagnostic,
}

// The words before a line number, the number, and the words after it.
#[tactic(auto, using(byte_devices::proofs::Outs::sends), unfolding(crate::specs::Remedies::number_text))]
fn write_number<W: Sink>(
    out: &mut Out<'_, W>,
    before: &[u8],
    number: u64,
    after: &[u8],
) -> Result<(), WriteFault>
    ensures { Sends W.written out.old out.new result (number_text before.now number after.now) }
{
    let mut buffer = Buffer::new();
    let pieces: [&[u8]; 3] = [before, buffer.format(number).as_bytes(), after];
    out.send_pieces(&pieces)
}

/// Writes the lines of the location at the beginning of a diagnostic's line.
#[tactic(auto, using(byte_devices::proofs::Outs::sends), unfolding(crate::specs::Remedies::location_text))]
pub(crate) fn write_location<W: Sink>(
    out: &mut Out<'_, W>,
    location: Location,
) -> Result<(), WriteFault>
    ensures { Sends W.written out.old out.new result (location_text location) }
{
    match location {
        Location::One(start) => write_number(out, b"line ", start.line, b": "),
        Location::Both(first, second) => {
            write_number(out, b"lines ", first.line, b" and ")?;
            write_number(out, b"", second.line, b": ")
        }
    }
}
