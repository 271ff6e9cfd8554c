//! A database text in, the diagrams of its messages out.
ghost use Rattle.candesk_runs.specs.Dumping.{Draws, DumpsDiagrams};

use crate::fault::RunFault;
use can_layout::{Indexed, Lookup, Meter, picture_with};
use can_line_stream::StreamFault;
use dbc_model::{Sink, WriteFault, put_all};
use dbc_reader::read;
use dbc_records::{Database, Message};
use std::alloc::Global;

// Writes the diagram of each message as soon as it is made.
fn draw<L: Lookup, W: Sink>(
    alloc: Global,
    lookup: &L,
    messages: &[Message],
    sink: &mut W,
) -> Result<(), RunFault>
    ensures { Draws (L.whole lookup.now) messages.now (W.written sink.old) (W.written sink.new) result }
{
    let mut meter = Meter::new();
    for message in messages {
        let Ok(picture) = picture_with(alloc, lookup, message, &mut meter) else {
            return Err(RunFault::Memory);
        };
        if let Err(WriteFault) = put_all(sink, picture.as_slice()) {
            return Err(RunFault::Stream(StreamFault::Write));
        }
    }
    Ok(())
}

// Writes the diagrams of all messages, by an index of the entries.
fn draw_all<W: Sink>(alloc: Global, database: &Database, sink: &mut W) -> Result<(), RunFault>
    ensures { Draws database.now database.now.messages (W.written sink.old) (W.written sink.new) result }
{
    let Ok(indexed) = Indexed::of(alloc, database) else {
        return Err(RunFault::Memory);
    };
    draw(alloc, &indexed, database.messages.as_slice(), sink)
}

/// Reads the database text to its end, and then writes the diagrams of its messages in order, each as soon as it is made.
#[inline(never)]
pub fn dump_run<W: Sink>(alloc: Global, text: &[u8], sink: &mut W) -> Result<(), RunFault>
    ensures { DumpsDiagrams text.now (W.written sink.old) (W.written sink.new) result }
{
    match read(alloc, text) {
        Ok(database) => draw_all(alloc, &database, sink),
        Err(fault) => Err(RunFault::Read(fault)),
    }
}
