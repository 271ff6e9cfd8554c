//! A database text in, what is wrong with it in words out.
ghost use Rattle.dbc_reader.specs.Grammar as grammar;
ghost use Rattle.dbc_reader.specs.Texts.{HasFirstFault};
ghost use Rattle.can_findings.specs.AllFindings.{all_findings};
ghost use Rattle.candesk_runs.specs.Explaining.{ExplainsAll, ExplainsFound, ExplainsFault, ExplainsText};

use crate::checking::{Verdict, verdict_of};
use crate::fault::RunFault;
use can_findings::{Finding, all_findings, write_explained};
use can_line_stream::StreamFault;
use dbc_faults::fault_report;
use dbc_model::{Memory, Sink, WriteFault, put_all};
use dbc_reader::{Starts, read_with_starts};
use dbc_records::Database;
use dbc_tokens::{Cause, ReadFault};
use std::alloc::Global;

// Writes diagnostics after their lines, with their remedies.
fn explain_all<W: Sink>(found: &[Finding], sink: &mut W) -> Result<Verdict, RunFault>
    ensures { ExplainsAll found.now (W.written sink.old) (W.written sink.new) result }
{
    match write_explained(found, sink) {
        Ok(()) => Ok(verdict_of(found)),
        Err(WriteFault) => Err(RunFault::Stream(StreamFault::Write)),
    }
}

// Writes the diagnostics of a database whose statements begin there.
fn explain_database<W: Sink>(
    alloc: Global,
    database: &Database,
    starts: &Starts,
    sink: &mut W,
) -> Result<Verdict, RunFault>
    ensures { ExplainsFound (all_findings database.now starts.now) (W.written sink.old) (W.written sink.new) result }
{
    match all_findings(alloc, database, starts) {
        Ok(found) => explain_all(found.as_slice(), sink),
        Err(Memory) => Err(RunFault::Memory),
    }
}

// Writes the report on the faults of a text, of which this is the first.
fn explain_fault<W: Sink>(
    alloc: Global,
    text: &[u8],
    fault: ReadFault,
    sink: &mut W,
) -> Result<Verdict, RunFault>
    requires { HasFirstFault grammar.text text.now fault }
    ensures { ExplainsFault fault (W.written sink.old) (W.written sink.new) result }
{
    match fault_report(alloc, text) {
        Ok(Some(report)) => match put_all(sink, report.words.as_slice()) {
            Ok(()) => Err(RunFault::Read(fault)),
            Err(WriteFault) => Err(RunFault::Stream(StreamFault::Write)),
        },
        Ok(None) => unreachable!(),
        Err(Memory) => Err(RunFault::Memory),
    }
}

/// Reads the database text, and explains why it is rejected: its first fault, and, as guesses, later ones. If it isn't rejected,
/// writes the diagnostics of the database, as `check` does, each after the lines of the statements it is about, with its remedy.
#[inline(never)]
pub fn explain_run<W: Sink>(alloc: Global, text: &[u8], sink: &mut W) -> Result<Verdict, RunFault>
    ensures { ExplainsText text.now (W.written sink.old) (W.written sink.new) result }
{
    match read_with_starts(alloc, text) {
        Ok((database, starts)) => explain_database(alloc, &database, &starts, sink),
        Err(fault) if fault.cause == Cause::Memory => Err(RunFault::Memory),
        Err(fault) => explain_fault(alloc, text, fault, sink),
    }
}
