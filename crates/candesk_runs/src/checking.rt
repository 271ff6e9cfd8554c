//! A database text in, a line for each of its diagnostics out.
ghost use Rattle.std.specs.Prelude.{◌≡◌};
ghost use Rattle.can_check.specs.AllFaults.{all_faults};
ghost use Rattle.candesk_runs.specs.Checking.{verdict_of, verdict_then, Flushes, Says, ChecksAll};
ghost use Rattle.byte_devices.specs.Outs.{SameSink};

use crate::fault::RunFault;
use byte_devices::Out;
use can_check::{Diagnostic, Report, report_all, send_lines};
use can_line_stream::StreamFault;
use dbc_model::{Sink, WriteFault};
use dbc_reader::read;
use dbc_records::Database;
use dbc_values::Stop;
use std::alloc::Global;

/// The verdict on a database as a whole.
#[derive(Clone, Copy, Debug, PartialEq, Eq)]
pub enum Verdict {
    /// There are no diagnostics.
    Clean,
    /// There are some.
    HasDiagnostics,
}

/// The verdict on a database in which these things were found.
pub(crate) fn verdict_of<T>(found: &[T]) -> Verdict
    ensures { result ≡ verdict_of found.now }
{
    match found {
        [] => Verdict::Clean,
        [_, ..] => Verdict::HasDiagnostics,
    }
}

// The lines of diagnostics, on their way to a sink, and the verdict so far.
#[derive(Drop)]
struct Lines<'w, W: Sink> {
    out: Out<'w, W>,
    verdict: Verdict,
}

// The verdict on what is found first and what is found then.
fn verdict_then(first: Verdict, later: Verdict) -> Verdict
    ensures { result ≡ verdict_then first later }
{
    match first {
        Verdict::Clean => later,
        Verdict::HasDiagnostics => Verdict::HasDiagnostics,
    }
}

impl<'w, W: Sink> Report for Lines<'w, W> {
    ghost use Rattle.candesk_runs.specs.Checking.{TookLines, StoppedLines};
    ghost use Rattle.candesk_runs.specs.inner.SentLines.{took_none, took_then, stopped_after, stopped_before, refused};

    ghost Took = { λ old new found. TookLines W.written old.out new.out old.verdict new.verdict found };

    ghost Stopped = { λ old new why found. StoppedLines W.written old.out new.out why found };

    fn take(&mut self, found: Vec<Diagnostic>) -> Result<(), Stop> {
        self.verdict = verdict_then(self.verdict, verdict_of(found.as_slice()));
        match send_lines(&mut self.out, found.as_slice()) {
            Ok(()) => Ok(()),
            Err(WriteFault) => Err(Stop::Write),
        }
    }

    ghost took_none = { λ here. took_none W.written here.out here.verdict };

    ghost took_then = { λ old mid new xs ys p q. took_then W.written old.out mid.out new.out old.verdict mid.verdict new.verdict
        xs ys p q };

    ghost stopped_after = { λ old mid new why xs ys p q. stopped_after W.written old.out mid.out new.out old.verdict mid.verdict
        why xs ys p q };

    ghost stopped_before = { λ old new why xs ys p. stopped_before W.written old.out new.out why xs ys p };

    ghost refused = { λ here xs. refused W.written here.out xs };
}

impl<'w, W: Sink> Lines<'w, W> {
    // No lines yet.
    fn before(out: Out<'w, W>) -> Lines<'w, W>
        ensures out { result.out ≡ out.entry }
        ensures clean { result.verdict ≡ Verdict.Clean }
    {
        Lines {
            out,
            verdict: Verdict::Clean,
        }
    }
}

// Puts what is buffered, after which it ends in this way, unless the put fails.
fn flushed<W: Sink>(
    out: &mut Out<'_, W>,
    outcome: Result<Verdict, RunFault>,
) -> Result<Verdict, RunFault>
    ensures ends { Flushes (W.written out.old.sink.now) (W.written out.new.sink.now) out.old.held.items outcome result }
    ensures same { SameSink out.old out.new }
{
    match out.flush() {
        Ok(()) => outcome,
        Err(WriteFault) => Err(RunFault::Stream(StreamFault::Write)),
    }
}

// Checks all of the database, and writes the lines as they are found.
fn say_all<W: Sink>(alloc: Global, database: &Database, sink: &mut W) -> Result<Verdict, RunFault>
    ensures { Says (all_faults database.now) (W.written sink.old) (W.written sink.new) result }
{
    let mut lines = Lines::before(Out::new(sink));
    let outcome = report_all(alloc, database, &mut lines);
    let verdict = lines.verdict;
    match outcome {
        Ok(()) => flushed(&mut lines.out, Ok(verdict)),
        Err(Stop::Memory) => flushed(&mut lines.out, Err(RunFault::Memory)),
        Err(Stop::Write) => Err(RunFault::Stream(StreamFault::Write)),
    }
}

/// Reads the database text to its end, checks all of the database, and writes a line for each of its diagnostics, in
/// the order of messages and then of entries, each as soon as it is found.
#[inline(never)]
pub fn check_run<W: Sink>(alloc: Global, text: &[u8], sink: &mut W) -> Result<Verdict, RunFault>
    ensures { ChecksAll text.now (W.written sink.old) (W.written sink.new) result }
{
    match read(alloc, text) {
        Ok(database) => say_all(alloc, &database, sink),
        Err(fault) => Err(RunFault::Read(fault)),
    }
}
