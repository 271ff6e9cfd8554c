//! A database text and a log in, rows of CSV out.
ghost use Rattle.std.specs.Prelude.{◌≡◌};
ghost use Rattle.candesk_runs.specs.Decoding.{WritesRows, WritesCsv, RunsToCsv};

use crate::fault::RunFault;
use can_csv_lines::{CsvDecoding, csv_stream_by, header};
use can_decode::{Decoding, Short};
use can_layout::Meter;
use can_line_stream::StreamFault;
use dbc_model::{Memory, Sink, Source, put_all};
use dbc_reader::read;
use dbc_records::Database;
use dbc_tokens::Cause;
use std::alloc::Global;

// Writes the rows of each line.
fn stream_rows<R: Source, W: Sink>(
    alloc: Global,
    decoding: &CsvDecoding<'_>,
    meter: &mut Meter,
    source: &mut R,
    sink: &mut W,
) -> Result<u64, RunFault>
    ensures { WritesRows decoding.now (R.unread source.old) (R.unread source.new) (W.written sink.old) (W.written sink.new) result }
{
    match csv_stream_by(alloc, decoding, meter, source, sink) {
        Ok(count) => Ok(count),
        Err(fault) => Err(RunFault::Stream(fault)),
    }
}

// The same, after the names of the columns.
fn write_csv<R: Source, W: Sink>(
    alloc: Global,
    decoding: &CsvDecoding<'_>,
    meter: &mut Meter,
    source: &mut R,
    sink: &mut W,
) -> Result<u64, RunFault>
    ensures { WritesCsv decoding.now (R.unread source.old) (R.unread source.new) (W.written sink.old) (W.written sink.new) result }
{
    match put_all(sink, header()) {
        Ok(()) => stream_rows(alloc, decoding, meter, source, sink),
        Err(_) => Err(RunFault::Stream(StreamFault::Write)),
    }
}

// The same, where the texts of the messages are to be prepared.
fn prepare_and_write_csv<R: Source, W: Sink>(
    alloc: Global,
    decoding: &Decoding,
    meter: &mut Meter,
    source: &mut R,
    sink: &mut W,
) -> Result<u64, RunFault>
    ensures { WritesCsv decoding.now (R.unread source.old) (R.unread source.new) (W.written sink.old) (W.written sink.new) result }
{
    match CsvDecoding::of(alloc, decoding) {
        Ok(prepared) => write_csv(alloc, &prepared, meter, source, sink),
        Err(Memory) => Err(RunFault::Memory),
    }
}

// The same for a database.
fn csv_of<R: Source, W: Sink>(
    alloc: Global,
    database: Database,
    short: Short,
    source: &mut R,
    sink: &mut W,
) -> Result<u64, RunFault>
    ensures { WritesCsv (record { database = database; short = short }) (R.unread source.old) (R.unread source.new)
        (W.written sink.old) (W.written sink.new) result }
{
    let mut meter = Meter::new();
    match Decoding::of(alloc, database, short, &mut meter) {
        Ok(decoding) => prepare_and_write_csv(alloc, &decoding, &mut meter, source, sink),
        Err(Memory) => Err(RunFault::Memory),
    }
}

/// Like [`decode_run`](crate::decode_run), with a row of CSV for each signal that is shown instead of the decoded lines, after a
/// row that names the columns. That one is written before the log is read.
#[inline(never)]
pub fn decode_csv_run<R: Source, W: Sink>(
    alloc: Global,
    text: &[u8],
    short: Short,
    source: &mut R,
    sink: &mut W,
) -> Result<u64, RunFault>
    ensures { RunsToCsv text.now short (R.unread source.old) (R.unread source.new) (W.written sink.old) (W.written sink.new)
        result }
{
    match read(alloc, text) {
        Ok(database) => csv_of(alloc, database, short, source, sink),
        Err(fault) if fault.cause == Cause::Memory => Err(RunFault::Memory),
        Err(fault) => Err(RunFault::Read(fault)),
    }
}
