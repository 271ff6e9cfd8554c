//! A log in, the rows of its lines out.
ghost use Rattle.std.specs.Prelude.{◌≡◌, ℕ, List, IfOk};
ghost use Rattle.csv.specs.Writing.{default_writer, row_text};
ghost use Rattle.can_line_stream.specs.LineTexts.{StreamsTexts};
ghost use Rattle.can_decode.specs.Counting.{counted};
ghost use Rattle.can_csv_lines.specs.Rows.{csv_line, header};

use crate::line::push_line;
use crate::plan_texts::Columns;
use byte_devices::{Sink, Source};
use can_decode::{CachedSearch, Decoding, MessageSearch, stream_counted};
use can_json_lines::{Prepared, PreparedFinder, prepared_finder};
use can_layout::Meter;
use can_line_stream::{LineText, StreamFault};
use dbc_text_buffer::TextBuffer;
use dbc_values::Memory;
use std::alloc::Global;
use std::marker::Model;

/// The row that names the columns.
#[tactic(auto, unfolding(csv::specs::Writing::fields_text, csv::specs::Writing::is_blank))]
pub fn header() -> &'static [u8]
    ensures { result.now ≡ row_text default_writer header }
{
    b"time,interface,id,message,signal,value,unit,name\n"
}

/// A database with all that decoding its bus to CSV needs. Contracts see the bus.
#[derive(Drop)]
pub struct CsvDecoding<'a> {
    prepared: Prepared<'a, Columns>,
}

impl<'a> Model for CsvDecoding<'a> {
    ghost use Rattle.can_decode.specs.DecodedLines.{Bus};

    ghost Value = { Bus };

    ghost view = { λ a. a.prepared };
}

impl<'a> CsvDecoding<'a> {
    /// The decoding of a database, with the texts that are prepared of its messages.
    pub fn of(alloc: Global, decoding: &'a Decoding) -> Result<CsvDecoding<'a>, Memory>
        ensures { IfOk result (λ made. made ≡ decoding.now) }
    {
        let prepared = Prepared::of(alloc, decoding, Columns)?;
        Ok(CsvDecoding { prepared })
    }
}

// The rows of lines. The choice for each CAN identifier is cached. Contracts see the bus.
#[derive(Drop)]
struct CsvRows<'a, C: MessageSearch> {
    finder: PreparedFinder<'a, CachedSearch<C>, Columns>,
    // the first fields of each row of a line
    came: TextBuffer,
}

impl<'a, C: MessageSearch> Model for CsvRows<'a, C> {
    ghost use Rattle.can_decode.specs.DecodedLines.{Bus};

    ghost Value = { Bus };

    ghost view = { λ a. a.finder };
}

impl<'a, C: MessageSearch> LineText for CsvRows<'a, C> {
    ghost use Rattle.std.proofs.Common.{refl};
    ghost use Rattle.can_csv_lines.specs.Rows.{csv_line};

    ghost text_of = { λ rows. csv_line rows };

    ghost next = { λ rows line. rows };

    fn renew(&mut self, text: &mut TextBuffer, line: &[u8]) -> Result<(), Memory> {
        text.clear();
        push_line(text, &mut self.came, &mut self.finder, line)
    }

    ghost same_texts = { λ rows line. refl };
}

// The rows of lines, by what finds the messages of CAN identifiers.
fn rows_by<'a, C: MessageSearch>(
    alloc: Global,
    decoding: &'a CsvDecoding<'a>,
    search: C,
) -> CsvRows<'a, C>
    requires { C.whole search ≡ decoding.now.database }
    ensures { result ≡ decoding.now }
{
    CsvRows {
        finder: prepared_finder(alloc, &decoding.prepared, search),
        came: TextBuffer::new(alloc),
    }
}

/// Like `decode_stream_by` of `can_decode`, with the rows of each line instead of its decoded line.
pub fn csv_stream_by<R: Source, W: Sink>(
    alloc: Global,
    decoding: &CsvDecoding<'_>,
    meter: &mut Meter,
    source: &mut R,
    sink: &mut W,
) -> Result<u64, StreamFault>
    ensures { (lines : List (List ℕ)) × StreamsTexts (csv_line decoding.now) (R.unread source.old) (R.unread source.new)
        (W.written sink.old) (W.written sink.new) result lines
        × (meter.new ≡ counted result lines meter.old) }
{
    let rows = rows_by(alloc, decoding, decoding.prepared.indexed_messages());
    stream_counted(alloc, rows, meter, source, sink)
}
