//! A log in, the objects of its lines out.
ghost use Rattle.std.specs.Prelude.{◌≡◌, ℕ, List, IfOk};
ghost use Rattle.can_line_stream.specs.LineTexts.{StreamsLines};
ghost use Rattle.can_decode.specs.Counting.{counted};
ghost use Rattle.can_json_lines.specs.Lines.{json_line};

use crate::finder::PreparedFinder;
use crate::interface::Ready;
use crate::keys::Keys;
use crate::line::push_line;
use crate::prepared::{Prepared, prepared_finder};
use byte_devices::{Sink, Source};
use can_decode::{CachedSearch, Decoding, MessageSearch, stream_counted};
use can_layout::Meter;
use can_line_stream::{LineText, StreamFault};
use dbc_text_buffer::TextBuffer;
use dbc_values::Memory;
use std::alloc::Global;
use std::marker::Model;

/// A database with all that decoding its bus to JSON needs. Contracts see the bus.
#[derive(Drop)]
pub struct JsonDecoding<'a> {
    prepared: Prepared<'a, Keys>,
}

impl<'a> Model for JsonDecoding<'a> {
    ghost use Rattle.can_decode.specs.DecodedLines.{Bus};

    ghost Value = { Bus };

    ghost view = { λ a. a.prepared };
}

impl<'a> JsonDecoding<'a> {
    /// The decoding of a database, with the texts that are prepared of its messages.
    pub fn of(alloc: Global, decoding: &'a Decoding) -> Result<JsonDecoding<'a>, Memory>
        ensures { IfOk result (λ made. made ≡ decoding.now) }
    {
        let prepared = Prepared::of(alloc, decoding, Keys::of(alloc)?)?;
        Ok(JsonDecoding { prepared })
    }
}

// The objects of lines. The choice for each CAN identifier is cached. Contracts see the bus.
#[derive(Drop)]
struct JsonLines<'a, C: MessageSearch> {
    finder: PreparedFinder<'a, CachedSearch<C>, Keys>,
    ready: Ready<'a>,
}

impl<'a, C: MessageSearch> Model for JsonLines<'a, C> {
    ghost use Rattle.can_decode.specs.DecodedLines.{Bus};

    ghost Value = { Bus };

    ghost view = { λ a. a.finder };
}

impl<'a, C: MessageSearch> LineText for JsonLines<'a, C> {
    ghost use Rattle.std.proofs.Common.{refl};
    ghost use Rattle.can_line_stream.specs.LineTexts.{line_text};
    ghost use Rattle.can_json_lines.specs.Lines.{json_line};

    ghost text_of = { λ lines. line_text (json_line lines) };

    ghost next = { λ lines line. lines };

    #[tactic(auto, using(can_json_texts::proofs::Objects::objects_are_printed))]
    fn renew(&mut self, text: &mut TextBuffer, line: &[u8]) -> Result<(), Memory> {
        text.clear();
        push_line(text, &mut self.ready, &mut self.finder, line)?;
        text.push(b'\n')?;
        Ok(())
    }

    ghost same_texts = { λ lines line. refl };
}

// The objects of lines, by what finds the messages of CAN identifiers.
fn lines_by<'a, C: MessageSearch>(
    alloc: Global,
    decoding: &'a JsonDecoding<'a>,
    search: C,
) -> JsonLines<'a, C>
    requires { C.whole search ≡ decoding.now.database }
    ensures { result ≡ decoding.now }
{
    JsonLines {
        finder: prepared_finder(alloc, &decoding.prepared, search),
        ready: Ready::of(decoding.prepared.preparer()),
    }
}

/// Like `decode_stream_by` of `can_decode`, with the object of each line instead of its decoded line.
pub fn json_stream_by<R: Source, W: Sink>(
    alloc: Global,
    decoding: &JsonDecoding<'_>,
    meter: &mut Meter,
    source: &mut R,
    sink: &mut W,
) -> Result<u64, StreamFault>
    ensures { (lines : List (List ℕ)) × StreamsLines (json_line decoding.now) (R.unread source.old) (R.unread source.new)
        (W.written sink.old) (W.written sink.new) result lines
        × (meter.new ≡ counted result lines meter.old) }
{
    let lines = lines_by(alloc, decoding, decoding.prepared.indexed_messages());
    stream_counted(alloc, lines, meter, source, sink)
}
