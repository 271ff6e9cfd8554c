//! A database text in, its canonical text out.
ghost use Rattle.candesk_runs.specs.Printing.{Prints, PrintsText};

use crate::fault::RunFault;
use can_line_stream::StreamFault;
use dbc_model::{Sink, WriteFault, print};
use dbc_reader::read;
use dbc_records::Database;
use std::alloc::Global;

// Writes the canonical text of a database.
fn print_all<W: Sink>(database: &Database, sink: &mut W) -> Result<(), RunFault>
    ensures { Prints database.now (W.written sink.old) (W.written sink.new) result }
{
    match print(database, sink) {
        Ok(()) => Ok(()),
        Err(WriteFault) => Err(RunFault::Stream(StreamFault::Write)),
    }
}

/// Reads the database text to its end, and then writes its canonical text in pieces of up to 16 KiB.
#[inline(never)]
pub fn print_run<W: Sink>(alloc: Global, text: &[u8], sink: &mut W) -> Result<(), RunFault>
    ensures { PrintsText text.now (W.written sink.old) (W.written sink.new) result }
{
    match read(alloc, text) {
        Ok(database) => print_all(&database, sink),
        Err(fault) => Err(RunFault::Read(fault)),
    }
}
