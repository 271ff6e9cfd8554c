//! A database text and a log in, decoded lines or JSON objects out.
ghost use Rattle.can_decode.specs.DecodedLines.{bus_line};
ghost use Rattle.can_json_lines.specs.Lines.{json_line};
ghost use Rattle.candesk_runs.specs.Decoding.{Writes, Runs, RunsToJson, RunsToTexts};

use crate::fault::RunFault;
use can_decode::{Decoding, Short, decode_stream_by};
use can_json_lines::{JsonDecoding, json_stream_by};
use can_layout::Meter;
use dbc_model::{Memory, Sink, Source};
use dbc_reader::read;
use dbc_records::Database;
use dbc_tokens::Cause;
use std::alloc::Global;

// What is written for the lines of a log.
trait LogTexts {
    ghost use Rattle.std.specs.Prelude.{ℕ, List};
    ghost use Rattle.dbc_records.specs.Databases.{Database as Whole};

    // The text of a line, by a database.
    ghost text_of: { Self → Whole → List ℕ → List ℕ };

    // Writes the text of each line.
    fn stream<R: Source, W: Sink>(
        &self,
        alloc: Global,
        database: Database,
        source: &mut R,
        sink: &mut W,
    ) -> Result<u64, RunFault>
        ensures { Writes (text_of self.now database) (R.unread source.old) (R.unread source.new) (W.written sink.old)
            (W.written sink.new) result };
}

// Writes the decoded line of each line.
fn stream_decoded<R: Source, W: Sink>(
    alloc: Global,
    decoding: &Decoding,
    meter: &mut Meter,
    source: &mut R,
    sink: &mut W,
) -> Result<u64, RunFault>
    ensures { Writes (bus_line decoding.now) (R.unread source.old) (R.unread source.new) (W.written sink.old) (W.written sink.new)
        result }
{
    match decode_stream_by(alloc, decoding, meter, source, sink) {
        Ok(count) => Ok(count),
        Err(fault) => Err(RunFault::Stream(fault)),
    }
}

// Decoded lines.
#[derive(Drop)]
struct Plain {
    short: Short,
}

impl LogTexts for Plain {
    ghost text_of = { λ plain database. bus_line (record { database = database; short = plain.short }) };

    fn stream<R: Source, W: Sink>(
        &self,
        alloc: Global,
        database: Database,
        source: &mut R,
        sink: &mut W,
    ) -> Result<u64, RunFault> {
        let mut meter = Meter::new();
        match Decoding::of(alloc, database, self.short, &mut meter) {
            Ok(decoding) => stream_decoded(alloc, &decoding, &mut meter, source, sink),
            Err(Memory) => Err(RunFault::Memory),
        }
    }
}

// Writes the object of each line.
fn stream_objects<R: Source, W: Sink>(
    alloc: Global,
    decoding: &JsonDecoding<'_>,
    meter: &mut Meter,
    source: &mut R,
    sink: &mut W,
) -> Result<u64, RunFault>
    ensures { Writes (json_line decoding.now) (R.unread source.old) (R.unread source.new) (W.written sink.old) (W.written sink.new)
        result }
{
    match json_stream_by(alloc, decoding, meter, source, sink) {
        Ok(count) => Ok(count),
        Err(fault) => Err(RunFault::Stream(fault)),
    }
}

// The same, where the texts of the messages are to be prepared.
fn prepare_and_stream<R: Source, W: Sink>(
    alloc: Global,
    decoding: &Decoding,
    meter: &mut Meter,
    source: &mut R,
    sink: &mut W,
) -> Result<u64, RunFault>
    ensures { Writes (json_line decoding.now) (R.unread source.old) (R.unread source.new) (W.written sink.old) (W.written sink.new)
        result }
{
    match JsonDecoding::of(alloc, decoding) {
        Ok(prepared) => stream_objects(alloc, &prepared, meter, source, sink),
        Err(Memory) => Err(RunFault::Memory),
    }
}

// JSON objects.
#[derive(Drop)]
struct Json {
    short: Short,
}

impl LogTexts for Json {
    ghost text_of = { λ json database. json_line (record { database = database; short = json.short }) };

    fn stream<R: Source, W: Sink>(
        &self,
        alloc: Global,
        database: Database,
        source: &mut R,
        sink: &mut W,
    ) -> Result<u64, RunFault> {
        let mut meter = Meter::new();
        match Decoding::of(alloc, database, self.short, &mut meter) {
            Ok(decoding) => prepare_and_stream(alloc, &decoding, &mut meter, source, sink),
            Err(Memory) => Err(RunFault::Memory),
        }
    }
}

// Reads the database text, and writes the texts of the lines of the log.
fn run_with<T: LogTexts, R: Source, W: Sink>(
    alloc: Global,
    text: &[u8],
    texts: &T,
    source: &mut R,
    sink: &mut W,
) -> Result<u64, RunFault>
    ensures { RunsToTexts (T.text_of texts.now) text.now (R.unread source.old) (R.unread source.new) (W.written sink.old)
        (W.written sink.new) result }
{
    match read(alloc, text) {
        Ok(database) => texts.stream(alloc, database, source, sink),
        Err(fault) if fault.cause == Cause::Memory => Err(RunFault::Memory),
        Err(fault) => Err(RunFault::Read(fault)),
    }
}

/// Reads the database text, makes the plans of its messages, then reads the log to its end, and writes the decoded line and an LF
/// for each line of it. `short` determines how truncated frames are decoded. It returns how many lines there are, up to `u64::MAX`.
#[inline(never)]
pub fn decode_run<R: Source, W: Sink>(
    alloc: Global,
    text: &[u8],
    short: Short,
    source: &mut R,
    sink: &mut W,
) -> Result<u64, RunFault>
    ensures { Runs text.now short (R.unread source.old) (R.unread source.new) (W.written sink.old) (W.written sink.new) result }
{
    run_with(alloc, text, &Plain { short }, source, sink)
}

/// Like [`decode_run`], with a JSON object instead of each decoded line.
#[inline(never)]
pub fn decode_json_run<R: Source, W: Sink>(
    alloc: Global,
    text: &[u8],
    short: Short,
    source: &mut R,
    sink: &mut W,
) -> Result<u64, RunFault>
    ensures { RunsToJson text.now short (R.unread source.old) (R.unread source.new) (W.written sink.old) (W.written sink.new)
        result }
{
    run_with(alloc, text, &Json { short }, source, sink)
}
