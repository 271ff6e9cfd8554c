//! A database text in, JSON objects with the bytes of its messages, signals and entries out.
ghost use Rattle.dbc_reader.specs.Located.{HasLocatedDatabase};
ghost use Rattle.candesk_runs.specs.Locating.{WritesLocations};

use crate::fault::RunFault;
use can_json_findings::location_lines;
use can_line_stream::StreamFault;
use dbc_model::{Sink, WriteFault, put_all};
use dbc_reader::{Starts, read_with_starts};
use dbc_records::Database;
use std::alloc::Global;

// Writes the locations of a database whose statements begin there.
#[tactic(auto, using(crate::proofs::FromText::locations_written, crate::proofs::FromText::locations_broke))]
fn write_locations<W: Sink>(
    alloc: Global,
    text: &[u8],
    read: &(Database, Starts),
    sink: &mut W,
) -> Result<(), RunFault>
    requires { HasLocatedDatabase text.now read.now.0 read.now.1 }
    ensures { WritesLocations text.now (W.written sink.old) (W.written sink.new) result }
{
    let Ok(lines) = location_lines(alloc, text, &read.0, &read.1) else {
        return Err(RunFault::Memory);
    };
    match put_all(sink, lines.as_slice()) {
        Ok(()) => Ok(()),
        Err(WriteFault) => Err(RunFault::Stream(StreamFault::Write)),
    }
}

/// Reads the database text to its end, and writes an object for each of its messages, signals and entries, with the bytes of the
/// text that name it. All lines are made before the first is written.
#[inline(never)]
pub fn locations_run<W: Sink>(alloc: Global, text: &[u8], sink: &mut W) -> Result<(), RunFault>
    ensures { WritesLocations text.now (W.written sink.old) (W.written sink.new) result }
{
    match read_with_starts(alloc, text) {
        Ok(read) => write_locations(alloc, text, &read, sink),
        Err(fault) => Err(RunFault::Read(fault)),
    }
}
