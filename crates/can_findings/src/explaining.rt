//! Findings with their remedies.
ghost use Rattle.std.specs.Prelude.{◌≡◌};
ghost use Rattle.std.specs.List.{flat_map};
ghost use Rattle.byte_devices.specs.Device.{Prints};
ghost use Rattle.byte_devices.specs.Outs.{Sends};
ghost use Rattle.can_findings.specs.Remedies.{explained_text, remedy_line};

use crate::finding::{Finding, write_location};
use crate::remedies::remedy;
use byte_devices::{Out, Sink, WriteFault};
use can_diagnostics::{Code, send_diagnostic};

// Ends a diagnostic's line, and writes that of its remedy.
#[tactic(auto, unfolding(crate::specs::Remedies::remedy_line))]
fn write_remedy<W: Sink>(out: &mut Out<'_, W>, code: Code) -> Result<(), WriteFault>
    ensures { Sends W.written out.old out.new result (remedy_line code) }
{
    let pieces: [&[u8]; 3] = [b"\n  remedy: ", remedy(code), b"\n"];
    out.send_pieces(&pieces)
}

// Writes the line of a finding and that of its remedy.
#[tactic(auto, using(byte_devices::proofs::Outs::sends), unfolding(crate::specs::Remedies::explained_text))]
fn write_one<W: Sink>(out: &mut Out<'_, W>, finding: &Finding) -> Result<(), WriteFault>
    ensures { Sends W.written out.old out.new result (explained_text finding.now) }
{
    write_location(out, finding.location)?;
    send_diagnostic(out, &finding.diagnostic)?;
    write_remedy(out, finding.diagnostic.code)
}

// Writes the lines of each finding.
fn write_all<W: Sink>(out: &mut Out<'_, W>, found: &[Finding]) -> Result<(), WriteFault>
    ensures { Sends W.written out.old out.new result (flat_map explained_text found.now) }
{
    for finding in found {
        write_one(out, finding)?;
    }
    Ok(())
}

/// Writes the line of each, as `check` does, preceded by the lines in which the statements that it is about begin, and then a line
/// with its remedy. It allocates nothing. If the sink fails, a prefix of the lines was written.
#[tactic(auto, using(byte_devices::proofs::Outs::flushes))]
pub fn write_explained<W: Sink>(found: &[Finding], sink: &mut W) -> Result<(), WriteFault>
    ensures { Prints (W.written sink.old) (W.written sink.new) result (flat_map explained_text found.now) }
{
    let mut out = Out::new(sink);
    write_all(&mut out, found)?;
    out.flush()
}
