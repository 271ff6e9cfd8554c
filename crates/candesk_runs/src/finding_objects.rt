//! A database text in, JSON objects for its diagnostics out.
ghost use Rattle.std.specs.Prelude.{◌≡◌};
ghost use Rattle.dbc_reader.specs.Grammar as grammar;
ghost use Rattle.dbc_reader.specs.Texts.{HasFirstFault};
ghost use Rattle.dbc_reader.specs.Located.{HasLocatedDatabase};
ghost use Rattle.candesk_runs.specs.FindingObjects.{WritesLinesOf, WritesFindings, WritesObjects};

use crate::checking::{Verdict, verdict_of};
use crate::fault::RunFault;
use can_findings::{Finding, all_findings};
use can_json_findings::{fault_lines, finding_line};
use can_line_stream::StreamFault;
use dbc_model::{Memory, Sink, WriteFault, put_all};
use dbc_reader::{Starts, read_with_starts};
use dbc_records::Database;
use dbc_tokens::{Cause, ReadFault};
use std::alloc::Global;

// Writes the line of each finding as soon as it is made.
fn write_lines<W: Sink>(
    alloc: Global,
    text: &[u8],
    found: &[Finding],
    sink: &mut W,
) -> Result<(), RunFault>
    ensures { WritesLinesOf text.now found.now (W.written sink.old) (W.written sink.new) result }
{
    for finding in found {
        let Ok(line) = finding_line(alloc, text, finding) else {
            return Err(RunFault::Memory);
        };
        if let Err(WriteFault) = put_all(sink, line.as_slice()) {
            return Err(RunFault::Stream(StreamFault::Write));
        }
    }
    Ok(())
}

fn write_findings<W: Sink>(
    alloc: Global,
    text: &[u8],
    found: &[Finding],
    sink: &mut W,
) -> Result<Verdict, RunFault>
    ensures { WritesFindings text.now found.now (W.written sink.old) (W.written sink.new) result }
{
    match write_lines(alloc, text, found, sink) {
        Ok(()) => Ok(verdict_of(found)),
        Err(fault) => Err(fault),
    }
}

// Writes the diagnostics of a database whose statements begin there.
#[tactic(auto, using(crate::proofs::FromText::objects_written))]
fn write_database<W: Sink>(
    alloc: Global,
    text: &[u8],
    read: &(Database, Starts),
    sink: &mut W,
) -> Result<Verdict, RunFault>
    requires { HasLocatedDatabase text.now read.now.0 read.now.1 }
    ensures { WritesObjects text.now (W.written sink.old) (W.written sink.new) result }
{
    match all_findings(alloc, &read.0, &read.1) {
        Ok(found) => write_findings(alloc, text, found.as_slice(), sink),
        Err(Memory) => Err(RunFault::Memory),
    }
}

// Writes the objects of the faults of a text, of which this is the first.
fn write_faults<W: Sink>(
    alloc: Global,
    text: &[u8],
    fault: ReadFault,
    sink: &mut W,
) -> Result<Verdict, RunFault>
    requires { HasFirstFault grammar.text text.now fault }
    ensures { WritesObjects text.now (W.written sink.old) (W.written sink.new) result }
{
    match fault_lines(alloc, text) {
        Ok(Some(lines)) => match put_all(sink, lines.words.as_slice()) {
            Ok(()) => Err(RunFault::Read(lines.fault)),
            Err(WriteFault) => Err(RunFault::Stream(StreamFault::Write)),
        },
        Ok(None) => unreachable!(),
        Err(Memory) => Err(RunFault::Memory),
    }
}

/// Reads the database text, and writes an object for each of its diagnostics, in `check`'s order, with its remedy and the
/// byte ranges of the parts that it is about. If the text is rejected, writes an object for its first fault and, as
/// guesses, for later ones.
#[inline(never)]
pub fn explain_json_run<W: Sink>(
    alloc: Global,
    text: &[u8],
    sink: &mut W,
) -> Result<Verdict, RunFault>
    ensures { WritesObjects text.now (W.written sink.old) (W.written sink.new) result }
{
    match read_with_starts(alloc, text) {
        Ok(read) => write_database(alloc, text, &read, sink),
        Err(fault) if fault.cause == Cause::Memory => Err(RunFault::Memory),
        Err(fault) => write_faults(alloc, text, fault, sink),
    }
}
