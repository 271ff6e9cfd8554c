//! Value tables, value descriptions, float types and multiplexing, and statements kept verbatim.
ghost use Rattle.std.specs.List.{flat_map};
ghost use Rattle.byte_devices.specs.Outs.{Sends};
ghost use Rattle.dbc_records.specs.Layout.{layout_text};
ghost use Rattle.dbc_records.specs.CanonicalText.{table_key, values_key, float_key, float_kind, mux_key, ranges_layout};
ghost use Rattle.dbc_records.specs.CanonicalText.{piece_layout};

use crate::printing::parts::{
    SpacedName, send_signal_key, send_spaced_end, send_statement_end, send_word,
};
use crate::printing::style::{Style, send_items, send_list, send_separated};
use byte_devices::{Out, Sink, WriteFault};
use dbc_records::{Entry, FloatRow, Kept, MuxRow, Range, TableRow, ValueRow};
use dbc_values::Pieces;
use itoa::Buffer;

// A number and its text.
struct EntryStyle;

impl Style<Entry> for EntryStyle {
    ghost use Rattle.dbc_records.specs.CanonicalText.{entry_layout};

    ghost layout = { entry_layout };

    #[tactic(auto, unfolding(dbc_records::specs::Layout::layout_text, dbc_records::specs::CanonicalText::entry_layout))]
    fn send_item<W: Sink>(out: &mut Out<'_, W>, entry: &Entry) -> Result<(), WriteFault> {
        let mut number = Buffer::new();
        let pieces: [&[u8]; 5] = [
            b" ",
            number.format(entry.number).as_bytes(),
            b" \"",
            entry.text.as_bytes(),
            b"\"",
        ];
        out.send_pieces(&pieces)
    }
}

#[tactic(auto, using(crate::proofs::Layouts::layouts), unfolding(dbc_records::specs::CanonicalText::table_key))]
fn send_table_key<W: Sink>(out: &mut Out<'_, W>, row: &TableRow) -> Result<(), WriteFault>
    ensures { Sends W.written out.old out.new result (layout_text (table_key row.now)) }
{
    send_word(out, b"VAL_TABLE_")?;
    SpacedName::send_item(out, &row.name)
}

/// A table's line.
pub(crate) struct TableLine;

impl Style<TableRow> for TableLine {
    ghost use Rattle.dbc_records.specs.CanonicalText.{table_layout};

    ghost layout = { table_layout };

    #[tactic(auto, using(crate::proofs::Layouts::layouts), unfolding(dbc_records::specs::CanonicalText::table_layout))]
    fn send_item<W: Sink>(out: &mut Out<'_, W>, row: &TableRow) -> Result<(), WriteFault> {
        send_table_key(out, row)?;
        send_list::<EntryStyle, Entry, W>(out, &row.entries)?;
        send_spaced_end(out)
    }
}

#[tactic(auto, using(crate::proofs::Layouts::layouts), unfolding(dbc_records::specs::CanonicalText::values_key))]
fn send_values_key<W: Sink>(out: &mut Out<'_, W>, row: &ValueRow) -> Result<(), WriteFault>
    ensures { Sends W.written out.old out.new result (layout_text (values_key row.now)) }
{
    send_word(out, b"VAL_")?;
    send_signal_key(out, row.number, &row.signal)
}

/// The line of a signal's value descriptions.
pub(crate) struct ValuesLine;

impl Style<ValueRow> for ValuesLine {
    ghost use Rattle.dbc_records.specs.CanonicalText.{values_layout};

    ghost layout = { values_layout };

    #[tactic(auto, using(crate::proofs::Layouts::layouts), unfolding(dbc_records::specs::CanonicalText::values_layout))]
    fn send_item<W: Sink>(out: &mut Out<'_, W>, row: &ValueRow) -> Result<(), WriteFault> {
        send_values_key(out, row)?;
        send_items::<EntryStyle, Entry, W>(out, row.entries.as_slice())?;
        send_spaced_end(out)
    }
}

#[tactic(auto, using(crate::proofs::Layouts::layouts), unfolding(dbc_records::specs::CanonicalText::float_key))]
fn send_float_key<W: Sink>(out: &mut Out<'_, W>, row: &FloatRow) -> Result<(), WriteFault>
    ensures { Sends W.written out.old out.new result (layout_text (float_key row.now)) }
{
    send_word(out, b"SIG_VALTYPE_")?;
    send_signal_key(out, row.number, &row.signal)
}

#[tactic(auto, unfolding(dbc_records::specs::Layout::layout_text, dbc_records::specs::CanonicalText::float_kind))]
fn send_float_kind<W: Sink>(out: &mut Out<'_, W>, row: &FloatRow) -> Result<(), WriteFault>
    ensures { Sends W.written out.old out.new result (layout_text (float_kind row.now)) }
{
    let mut kind = Buffer::new();
    let pieces: [&[u8]; 2] = [b" : ", kind.format(row.kind).as_bytes()];
    out.send_pieces(&pieces)
}

/// The line of a signal's float type.
pub(crate) struct FloatLine;

impl Style<FloatRow> for FloatLine {
    ghost use Rattle.dbc_records.specs.CanonicalText.{float_layout};

    ghost layout = { float_layout };

    #[tactic(auto, using(crate::proofs::Layouts::layouts), unfolding(dbc_records::specs::CanonicalText::float_layout))]
    fn send_item<W: Sink>(out: &mut Out<'_, W>, row: &FloatRow) -> Result<(), WriteFault> {
        send_float_key(out, row)?;
        send_float_kind(out, row)?;
        send_statement_end(out)
    }
}

// A range after a blank.
struct FirstRange;

impl Style<Range> for FirstRange {
    ghost use Rattle.dbc_records.specs.CanonicalText.{range_layout};

    ghost layout = { range_layout };

    #[tactic(auto, unfolding(dbc_records::specs::Layout::layout_text, dbc_records::specs::CanonicalText::range_layout))]
    fn send_item<W: Sink>(out: &mut Out<'_, W>, range: &Range) -> Result<(), WriteFault> {
        let mut first = Buffer::new();
        let mut last = Buffer::new();
        let pieces: [&[u8]; 4] = [
            b" ",
            first.format(range.first).as_bytes(),
            b"-",
            last.format(range.last).as_bytes(),
        ];
        out.send_pieces(&pieces)
    }
}

// A range after a comma.
struct FurtherRange;

impl Style<Range> for FurtherRange {
    ghost use Rattle.dbc_records.specs.CanonicalText.{further_range};

    ghost layout = { further_range };

    #[tactic(auto, unfolding(dbc_records::specs::Layout::layout_text, dbc_records::specs::CanonicalText::further_range))]
    fn send_item<W: Sink>(out: &mut Out<'_, W>, range: &Range) -> Result<(), WriteFault> {
        let mut first = Buffer::new();
        let mut last = Buffer::new();
        let pieces: [&[u8]; 4] = [
            b", ",
            first.format(range.first).as_bytes(),
            b"-",
            last.format(range.last).as_bytes(),
        ];
        out.send_pieces(&pieces)
    }
}

#[tactic(auto, using(crate::proofs::Layouts::layouts), unfolding(dbc_records::specs::CanonicalText::ranges_layout))]
fn send_ranges<W: Sink>(out: &mut Out<'_, W>, ranges: &[Range]) -> Result<(), WriteFault>
    ensures { Sends W.written out.old out.new result (layout_text (ranges_layout ranges.now)) }
{
    send_separated::<FirstRange, FurtherRange, Range, W>(out, ranges)
}

#[tactic(auto, using(crate::proofs::Layouts::layouts), unfolding(dbc_records::specs::CanonicalText::mux_key))]
fn send_mux_key<W: Sink>(out: &mut Out<'_, W>, row: &MuxRow) -> Result<(), WriteFault>
    ensures { Sends W.written out.old out.new result (layout_text (mux_key row.now)) }
{
    send_word(out, b"SG_MUL_VAL_")?;
    send_signal_key(out, row.number, &row.signal)
}

/// The line of a signal's multiplexing.
pub(crate) struct MuxLine;

impl Style<MuxRow> for MuxLine {
    ghost use Rattle.dbc_records.specs.CanonicalText.{mux_layout};

    ghost layout = { mux_layout };

    #[tactic(auto, using(crate::proofs::Layouts::layouts), unfolding(dbc_records::specs::CanonicalText::mux_layout))]
    fn send_item<W: Sink>(out: &mut Out<'_, W>, row: &MuxRow) -> Result<(), WriteFault> {
        send_mux_key(out, row)?;
        SpacedName::send_item(out, &row.switch)?;
        send_ranges(out, row.ranges.as_slice())?;
        send_statement_end(out)
    }
}

// A token and a blank.
#[tactic(auto, unfolding(dbc_records::specs::Layout::layout_text, dbc_records::specs::CanonicalText::piece_layout))]
fn send_piece<W: Sink>(out: &mut Out<'_, W>, piece: &[u8]) -> Result<(), WriteFault>
    ensures { Sends W.written out.old out.new result (layout_text (piece_layout piece.now)) }
{
    out.send_pieces(&[piece, b" "])
}

// The tokens, one after another, each with a blank.
fn send_tokens<W: Sink>(out: &mut Out<'_, W>, tokens: &Pieces) -> Result<(), WriteFault>
    ensures { Sends W.written out.old out.new result (flat_map (λ piece. layout_text (piece_layout piece)) tokens.now) }
{
    for index in 0..tokens.len() {
        if let Some(piece) = tokens.get(index) {
            send_piece(out, piece)?;
        }
    }
    Ok(())
}

#[tactic(auto, using(crate::proofs::Layouts::text_of_items))]
fn send_kept<W: Sink>(out: &mut Out<'_, W>, tokens: &Pieces) -> Result<(), WriteFault>
    ensures { Sends W.written out.old out.new result (layout_text (flat_map piece_layout tokens.now)) }
{
    send_tokens(out, tokens)
}

/// The line of a statement kept verbatim.
pub(crate) struct KeptLine;

impl Style<Kept> for KeptLine {
    ghost use Rattle.dbc_records.specs.CanonicalText.{kept_layout};

    ghost layout = { kept_layout };

    #[tactic(auto, using(crate::proofs::Layouts::layouts), unfolding(dbc_records::specs::CanonicalText::kept_layout))]
    fn send_item<W: Sink>(out: &mut Out<'_, W>, statement: &Kept) -> Result<(), WriteFault> {
        send_kept(out, &statement.tokens)?;
        send_statement_end(out)
    }
}
