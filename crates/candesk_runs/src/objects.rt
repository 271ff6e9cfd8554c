//! A database text in, JSON objects out.
ghost use Rattle.can_json_dump.specs.Dumps.{dump_lines};
ghost use Rattle.candesk_runs.specs.Dumping.{WritesLines, DumpsObjects};

use crate::fault::RunFault;
use can_json_dump::Dump;
use can_layout::{Indexed, Lookup};
use can_line_stream::StreamFault;
use dbc_model::{Sink, WriteFault, put_all};
use dbc_reader::read;
use dbc_records::Database;
use std::alloc::Global;

// Writes each line as soon as it is made.
fn write_lines<L: Lookup, W: Sink>(
    alloc: Global,
    dump: &Dump<'_, L>,
    sink: &mut W,
) -> Result<(), RunFault>
    ensures { WritesLines (dump_lines dump.now) (W.written sink.old) (W.written sink.new) result }
{
    for index in 0..dump.len() {
        let Ok(line) = dump.line(alloc, index) else {
            return Err(RunFault::Memory);
        };
        if let Err(WriteFault) = put_all(sink, line.as_slice()) {
            return Err(RunFault::Stream(StreamFault::Write));
        }
    }
    Ok(())
}

// Writes the lines, by what finds the entries of the database.
fn write_dump<L: Lookup, W: Sink>(alloc: Global, lookup: &L, sink: &mut W) -> Result<(), RunFault>
    ensures { WritesLines (dump_lines (L.whole lookup.now)) (W.written sink.old) (W.written sink.new) result }
{
    let Ok(dump) = Dump::of(alloc, lookup) else {
        return Err(RunFault::Memory);
    };
    write_lines(alloc, &dump, sink)
}

// The same, by an index of the entries.
fn write_database<W: Sink>(alloc: Global, database: &Database, sink: &mut W) -> Result<(), RunFault>
    ensures { WritesLines (dump_lines database.now) (W.written sink.old) (W.written sink.new) result }
{
    let Ok(indexed) = Indexed::of(alloc, database) else {
        return Err(RunFault::Memory);
    };
    write_dump(alloc, &indexed, sink)
}

/// Reads the database text to its end, and then writes the objects of its messages in order, each as soon as it is made, and last
/// the object of all that belongs to no message.
#[inline(never)]
pub fn dump_json_run<W: Sink>(alloc: Global, text: &[u8], sink: &mut W) -> Result<(), RunFault>
    ensures { DumpsObjects text.now (W.written sink.old) (W.written sink.new) result }
{
    match read(alloc, text) {
        Ok(database) => write_database(alloc, &database, sink),
        Err(fault) => Err(RunFault::Read(fault)),
    }
}
