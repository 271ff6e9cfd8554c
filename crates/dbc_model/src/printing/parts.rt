//! The parts of which statements are printed.
ghost use Rattle.byte_devices.specs.Outs.{Sends};
ghost use Rattle.dbc_records.specs.Layout.{layout_text};
ghost use Rattle.dbc_records.specs.CanonicalText.{blank, mark_layout, spaced_mark, number_layout, spaced_number, spaced_text};
ghost use Rattle.dbc_records.specs.CanonicalText.{spaced_name, spaced_word, word_layout, signal_key, line_end, statement_end};
ghost use Rattle.dbc_records.specs.CanonicalText.{spaced_end, pair_layout};

use crate::printing::numbers::send_decimal;
use crate::printing::style::Style;
use byte_devices::{Out, Sink, WriteFault};
use dbc_values::{Decimal, Name, Text};
use itoa::Buffer;

/// Holds the mark.
#[tactic(auto, unfolding(dbc_records::specs::Layout::layout_text, dbc_records::specs::CanonicalText::mark_layout))]
pub(crate) fn send_mark<W: Sink>(out: &mut Out<'_, W>, mark: u8) -> Result<(), WriteFault>
    ensures { Sends W.written out.old out.new result (layout_text (mark_layout mark)) }
{
    out.send(&[mark])
}

/// Holds a blank and the mark.
#[tactic(auto, unfolding(dbc_records::specs::Layout::layout_text, dbc_records::specs::CanonicalText::spaced_mark))]
pub(crate) fn send_spaced_mark<W: Sink>(out: &mut Out<'_, W>, mark: u8) -> Result<(), WriteFault>
    ensures { Sends W.written out.old out.new result (layout_text (spaced_mark mark)) }
{
    out.send(&[b' ', mark])
}

/// Holds the number.
#[tactic(auto, unfolding(dbc_records::specs::Layout::layout_text, dbc_records::specs::CanonicalText::number_layout))]
pub(crate) fn send_number<W: Sink>(out: &mut Out<'_, W>, number: Decimal) -> Result<(), WriteFault>
    ensures { Sends W.written out.old out.new result (layout_text (number_layout number)) }
{
    send_decimal(out, number)
}

/// Holds a blank.
#[tactic(auto, unfolding(dbc_records::specs::Layout::layout_text, dbc_records::specs::CanonicalText::blank))]
fn send_blank<W: Sink>(out: &mut Out<'_, W>) -> Result<(), WriteFault>
    ensures { Sends W.written out.old out.new result (layout_text blank) }
{
    out.send(b" ")
}

/// Holds a blank and the number.
#[tactic(auto, using(crate::proofs::Layouts::layouts), unfolding(dbc_records::specs::CanonicalText::spaced_number))]
pub(crate) fn send_spaced_number<W: Sink>(
    out: &mut Out<'_, W>,
    number: Decimal,
) -> Result<(), WriteFault>
    ensures { Sends W.written out.old out.new result (layout_text (spaced_number number)) }
{
    send_blank(out)?;
    send_number(out, number)
}

/// Holds a blank and the text between quotes.
#[tactic(auto, unfolding(dbc_records::specs::Layout::layout_text, dbc_records::specs::CanonicalText::spaced_text))]
pub(crate) fn send_spaced_text<W: Sink>(out: &mut Out<'_, W>, text: &Text) -> Result<(), WriteFault>
    ensures { Sends W.written out.old out.new result (layout_text (spaced_text text.now)) }
{
    out.send_pieces(&[b" \"".as_slice(), text.as_bytes(), b"\""])
}

/// Holds a blank and the word.
#[tactic(auto, unfolding(dbc_records::specs::Layout::layout_text, dbc_records::specs::CanonicalText::spaced_word))]
pub(crate) fn send_spaced_word<W: Sink>(out: &mut Out<'_, W>, word: &[u8]) -> Result<(), WriteFault>
    ensures { Sends W.written out.old out.new result (layout_text (spaced_word word.now)) }
{
    out.send_pieces(&[b" ".as_slice(), word])
}

/// Holds the word.
#[tactic(auto, unfolding(dbc_records::specs::Layout::layout_text, dbc_records::specs::CanonicalText::word_layout))]
pub(crate) fn send_word<W: Sink>(out: &mut Out<'_, W>, word: &[u8]) -> Result<(), WriteFault>
    ensures { Sends W.written out.old out.new result (layout_text (word_layout word.now)) }
{
    out.send(word)
}

/// Holds the CAN identifier of a message and the name of a signal, each after a blank.
#[tactic(auto, unfolding(dbc_records::specs::Layout::layout_text, dbc_records::specs::CanonicalText::signal_key))]
pub(crate) fn send_signal_key<W: Sink>(
    out: &mut Out<'_, W>,
    number: u32,
    name: &Name,
) -> Result<(), WriteFault>
    ensures { Sends W.written out.old out.new result (layout_text (signal_key number name.now)) }
{
    let mut buffer = Buffer::new();
    let pieces: [&[u8]; 4] = [
        b" ",
        buffer.format(number).as_bytes(),
        b" ",
        name.as_bytes(),
    ];
    out.send_pieces(&pieces)
}

/// Ends the line.
#[tactic(auto, unfolding(dbc_records::specs::Layout::layout_text, dbc_records::specs::CanonicalText::line_end))]
pub(crate) fn send_line_end<W: Sink>(out: &mut Out<'_, W>) -> Result<(), WriteFault>
    ensures { Sends W.written out.old out.new result (layout_text (line_end)) }
{
    out.send(b"\n")
}

/// Ends the statement.
#[tactic(auto, unfolding(dbc_records::specs::Layout::layout_text, dbc_records::specs::CanonicalText::statement_end))]
pub(crate) fn send_statement_end<W: Sink>(out: &mut Out<'_, W>) -> Result<(), WriteFault>
    ensures { Sends W.written out.old out.new result (layout_text (statement_end)) }
{
    out.send(b";\n")
}

/// Ends a statement after entries.
#[tactic(auto, unfolding(dbc_records::specs::Layout::layout_text, dbc_records::specs::CanonicalText::spaced_end))]
pub(crate) fn send_spaced_end<W: Sink>(out: &mut Out<'_, W>) -> Result<(), WriteFault>
    ensures { Sends W.written out.old out.new result (layout_text (spaced_end)) }
{
    out.send(b" ;\n")
}

/// Holds two numbers with marks before, between and after them: ` (a,b)`.
#[tactic(auto, using(crate::proofs::Layouts::layouts), unfolding(dbc_records::specs::CanonicalText::pair_layout))]
pub(crate) fn send_pair<W: Sink>(
    out: &mut Out<'_, W>,
    opening: u8,
    first: Decimal,
    between: u8,
    second: Decimal,
    closing: u8,
) -> Result<(), WriteFault>
    ensures { Sends W.written out.old out.new result (layout_text (pair_layout opening first between second closing)) }
{
    send_spaced_mark(out, opening)?;
    send_number(out, first)?;
    send_mark(out, between)?;
    send_number(out, second)?;
    send_mark(out, closing)
}

/// A name after a blank.
pub(crate) struct SpacedName;

impl Style<Name> for SpacedName {
    ghost use Rattle.dbc_records.specs.CanonicalText.{spaced_name};

    ghost layout = { spaced_name };

    #[tactic(auto, unfolding(dbc_records::specs::Layout::layout_text, dbc_records::specs::CanonicalText::spaced_name))]
    fn send_item<W: Sink>(out: &mut Out<'_, W>, name: &Name) -> Result<(), WriteFault> {
        out.send_pieces(&[b" ".as_slice(), name.as_bytes()])
    }
}
