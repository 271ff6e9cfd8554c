//! A log in, its decoded lines out.
ghost use Rattle.std.specs.Prelude.{◌≡◌, ℕ, List, map};
ghost use Rattle.can_line_stream.specs.LineTexts.{StreamsTexts, StreamsLines};
ghost use Rattle.can_layout.specs.Plans.{plan_of};
ghost use Rattle.can_layout.specs.Meters.{with_line, repeated};
ghost use Rattle.can_decode.specs.Counting.{refused_count, counted};
ghost use Rattle.can_decode.specs.DecodedLines.{decoded_line, bus_line};

use crate::cached_search::CachedSearch;
use crate::decoding::Decoding;
use crate::line::{Finder, push_line};
use crate::message_search::{LinearSearch, MessageSearch};
use crate::short::Short;
use byte_devices::{Sink, Source};
use can_layout::{Meter, Plan};
use can_line_stream::{LineText, StreamFault, stream_texts};
use dbc_records::Database;
use dbc_text_buffer::TextBuffer;
use dbc_values::Memory;
use std::alloc::Global;
use std::mem::swap;

// The decoded lines of a database. The choice for each CAN identifier is cached.
#[derive(Drop)]
struct PlainLines<'a, C: MessageSearch> {
    finder: Finder<'a, CachedSearch<C>>,
}

impl<'a, C: MessageSearch> LineText for PlainLines<'a, C> {
    ghost use Rattle.std.proofs.Common.{refl};
    ghost use Rattle.can_line_stream.specs.LineTexts.{line_text};
    ghost use Rattle.can_decode.specs.DecodedLines.{bus_line};

    ghost text_of = { λ lines. line_text (bus_line lines.finder) };

    ghost next = { λ lines line. lines };

    fn renew(&mut self, text: &mut TextBuffer, line: &[u8]) -> Result<(), Memory> {
        text.clear();
        push_line(text.allocator(), text, &mut self.finder, line)?;
        text.push(b'\n')?;
        Ok(())
    }

    ghost same_texts = { λ lines line. refl };
}

// The texts of lines, and the meter that counts them.
#[derive(Drop)]
struct Counted<T: LineText> {
    texts: T,
    meter: Meter,
}

impl<T: LineText> LineText for Counted<T> {
    ghost use Rattle.can_layout.specs.Meters.{with_line};

    ghost text_of = { λ counted. T.text_of counted.texts };

    ghost next = { λ counted line. record { texts = T.next counted.texts line; meter = with_line counted.meter } };

    fn renew(&mut self, text: &mut TextBuffer, line: &[u8]) -> Result<(), Memory> {
        self.texts.renew(text, line)?;
        self.meter.count_line();
        Ok(())
    }

    ghost same_texts = { λ counted line. T.same_texts counted.texts line };
}

/// A finder that caches the choice for each CAN identifier.
pub fn caching<'a, C: MessageSearch>(
    alloc: Global,
    finder: Finder<'a, C>,
) -> Finder<'a, CachedSearch<C>>
    ensures { result ≡ finder.entry }
{
    Finder {
        database: finder.database,
        plans: finder.plans,
        short: finder.short,
        search: CachedSearch::new(alloc, finder.search),
    }
}

// Counts the line for which memory ran out.
fn count_refused(ended: &Result<u64, StreamFault>, meter: &mut Meter)
    ensures { meter.new ≡ repeated (refused_count ended.now) with_line meter.old }
{
    if let Err(StreamFault::Memory) = ended {
        meter.count_line();
    }
}

/// Writes the text that `texts` makes of each line. The meter counts each line whose text was made, and the one for
/// which memory ran out.
pub fn stream_counted<T: LineText, R: Source, W: Sink>(
    alloc: Global,
    texts: T,
    meter: &mut Meter,
    source: &mut R,
    sink: &mut W,
) -> Result<u64, StreamFault>
    ensures { (lines : List (List ℕ)) × StreamsTexts (T.text_of texts) (R.unread source.old) (R.unread source.new)
        (W.written sink.old) (W.written sink.new) result lines
        × (meter.new ≡ counted result lines meter.old) }
{
    let mut counted = Counted {
        texts,
        meter: Meter::new(),
    };
    swap(&mut counted.meter, meter);
    let ended = stream_texts(alloc, &mut counted, source, sink);
    swap(&mut counted.meter, meter);
    count_refused(&ended, meter);
    ended
}

// Decodes by what finds the messages of CAN identifiers.
fn stream_by<'a, C: MessageSearch, R: Source, W: Sink>(
    alloc: Global,
    finder: Finder<'a, C>,
    meter: &mut Meter,
    source: &mut R,
    sink: &mut W,
) -> Result<u64, StreamFault>
    ensures { (lines : List (List ℕ)) × StreamsLines (bus_line finder.entry) (R.unread source.old) (R.unread source.new)
        (W.written sink.old) (W.written sink.new) result lines
        × (meter.new ≡ counted result lines meter.old) }
{
    let lines = PlainLines {
        finder: caching(alloc, finder),
    };
    stream_counted(alloc, lines, meter, source, sink)
}

/// Reads the source to its end, writes the decoded line and an LF for each line, and returns how many lines there are, up to
/// `u64::MAX`. `plans` are those of the messages in order. A line has at most 4,096 bytes, its CR counted and its LF not. Before it
/// pulls again, it has written the texts of all lines that were read whole. The meter counts each line whose text was made, and the
/// one for which memory ran out. A fault is a longer line, a read or a write that failed, or running out of memory. `short`
/// determines how truncated frames are decoded.
///
/// The choice for each CAN identifier is cached, and is found by searching the messages. [`decode_stream_by`] has an index.
pub fn decode_stream<R: Source, W: Sink>(
    alloc: Global,
    database: &Database,
    plans: &[Plan],
    meter: &mut Meter,
    source: &mut R,
    sink: &mut W,
    short: Short,
) -> Result<u64, StreamFault>
    requires { plans.now ≡ map (plan_of database.now) database.now.messages }
    ensures { (lines : List (List ℕ)) × StreamsLines (decoded_line short database.now) (R.unread source.old) (R.unread source.new)
        (W.written sink.old) (W.written sink.new) result lines
        × (meter.new ≡ counted result lines meter.old) }
{
    let finder = Finder {
        database,
        plans,
        short,
        search: LinearSearch { database },
    };
    stream_by(alloc, finder, meter, source, sink)
}

/// Like [`decode_stream`], but finds what a CAN identifier goes to in an index.
pub fn decode_stream_by<R: Source, W: Sink>(
    alloc: Global,
    decoding: &Decoding,
    meter: &mut Meter,
    source: &mut R,
    sink: &mut W,
) -> Result<u64, StreamFault>
    ensures { (lines : List (List ℕ)) × StreamsLines (bus_line decoding.now) (R.unread source.old) (R.unread source.new)
        (W.written sink.old) (W.written sink.new) result lines
        × (meter.new ≡ counted result lines meter.old) }
{
    let finder = Finder {
        database: decoding.database(),
        plans: decoding.plans(),
        short: decoding.short(),
        search: decoding.indexed_messages(),
    };
    stream_by(alloc, finder, meter, source, sink)
}
