//! The canonical text of a database.
ghost use Rattle.std.specs.Prelude.{◌≡◌};
ghost use Rattle.byte_devices.specs.Device.{Prints};
ghost use Rattle.byte_devices.specs.Outs.{Sends};
ghost use Rattle.dbc_records.specs.Layout.{layout_text};
ghost use Rattle.dbc_records.specs.CanonicalText.{version_layout, symbols_title, symbols_layout, timing_title, timing_numbers};
ghost use Rattle.dbc_records.specs.CanonicalText.{perhaps_numbers, timing_layout, nodes_title, nodes_layout, front_layout};
ghost use Rattle.dbc_records.specs.CanonicalText.{attributes_layout, rows_layout, database_layout, canonical_text};

mod attributes;
mod messages;
mod numbers;
mod parts;
mod rows;
mod style;

use crate::printing::attributes::{AttributeLine, CommentLine, DefaultLine, DefinitionLine};
use crate::printing::messages::MessageLines;
use crate::printing::parts::{SpacedName, send_line_end, send_spaced_mark, send_spaced_number};
use crate::printing::rows::{FloatLine, KeptLine, MuxLine, TableLine, ValuesLine};
use crate::printing::style::{Style, send_list};
use byte_devices::{Out, Sink, WriteFault};
use dbc_records::{
    AttrDef, AttrDefault, AttrRow, Comment, Database, FloatRow, Kept, Message, MuxRow, TableRow,
    ValueRow,
};
use dbc_values::{Decimal, List, Name, Symbol, Text};

#[tactic(auto, unfolding(dbc_records::specs::Layout::layout_text, dbc_records::specs::CanonicalText::version_layout))]
fn send_version<W: Sink>(out: &mut Out<'_, W>, version: &Text) -> Result<(), WriteFault>
    ensures { Sends W.written out.old out.new result (layout_text (version_layout version.now)) }
{
    out.send_pieces(&[b"VERSION \"".as_slice(), version.as_bytes(), b"\"\n"])
}

// A symbol's line.
struct SymbolLine;

impl Style<Symbol> for SymbolLine {
    ghost use Rattle.dbc_records.specs.CanonicalText.{symbol_layout};

    ghost layout = { symbol_layout };

    #[tactic(auto, unfolding(dbc_records::specs::Layout::layout_text, dbc_records::specs::CanonicalText::symbol_layout))]
    fn send_item<W: Sink>(out: &mut Out<'_, W>, symbol: &Symbol) -> Result<(), WriteFault> {
        out.send_pieces(&[b"\t".as_slice(), symbol.as_bytes(), b"\n"])
    }
}

#[tactic(auto, unfolding(dbc_records::specs::Layout::layout_text, dbc_records::specs::CanonicalText::symbols_title))]
fn send_symbols_title<W: Sink>(out: &mut Out<'_, W>) -> Result<(), WriteFault>
    ensures { Sends W.written out.old out.new result (layout_text (symbols_title)) }
{
    out.send(b"NS_ :\n")
}

#[tactic(auto, using(crate::proofs::Layouts::layouts), unfolding(dbc_records::specs::CanonicalText::symbols_layout))]
fn send_symbols<W: Sink>(out: &mut Out<'_, W>, symbols: &List<Symbol>) -> Result<(), WriteFault>
    ensures { Sends W.written out.old out.new result (layout_text (symbols_layout symbols.now)) }
{
    send_symbols_title(out)?;
    send_list::<SymbolLine, Symbol, W>(out, symbols)
}

#[tactic(auto, unfolding(dbc_records::specs::Layout::layout_text, dbc_records::specs::CanonicalText::timing_title))]
fn send_timing_title<W: Sink>(out: &mut Out<'_, W>) -> Result<(), WriteFault>
    ensures { Sends W.written out.old out.new result (layout_text (timing_title)) }
{
    out.send(b"BS_:")
}

#[tactic(auto, using(crate::proofs::Layouts::layouts), unfolding(dbc_records::specs::CanonicalText::timing_numbers))]
fn send_timing_numbers<W: Sink>(
    out: &mut Out<'_, W>,
    numbers: &[Decimal; 3],
) -> Result<(), WriteFault>
    ensures { Sends W.written out.old out.new result (layout_text (timing_numbers numbers.now)) }
{
    let [a, b, c] = numbers;
    send_spaced_number(out, *a)?;
    send_spaced_mark(out, b':')?;
    send_spaced_number(out, *b)?;
    send_spaced_mark(out, b',')?;
    send_spaced_number(out, *c)
}

#[tactic(auto, using(crate::proofs::Layouts::layouts), unfolding(dbc_records::specs::CanonicalText::perhaps_numbers))]
fn send_perhaps_numbers<W: Sink>(
    out: &mut Out<'_, W>,
    timing: &Option<[Decimal; 3]>,
) -> Result<(), WriteFault>
    ensures { Sends W.written out.old out.new result (layout_text (perhaps_numbers timing.now)) }
{
    match timing {
        Some(numbers) => send_timing_numbers(out, numbers),
        None => Ok(()),
    }
}

#[tactic(auto, using(crate::proofs::Layouts::layouts), unfolding(dbc_records::specs::CanonicalText::timing_layout))]
fn send_timing<W: Sink>(
    out: &mut Out<'_, W>,
    timing: &Option<[Decimal; 3]>,
) -> Result<(), WriteFault>
    ensures { Sends W.written out.old out.new result (layout_text (timing_layout timing.now)) }
{
    send_timing_title(out)?;
    send_perhaps_numbers(out, timing)?;
    send_line_end(out)
}

#[tactic(auto, unfolding(dbc_records::specs::Layout::layout_text, dbc_records::specs::CanonicalText::nodes_title))]
fn send_nodes_title<W: Sink>(out: &mut Out<'_, W>) -> Result<(), WriteFault>
    ensures { Sends W.written out.old out.new result (layout_text (nodes_title)) }
{
    out.send(b"BU_:")
}

#[tactic(auto, using(crate::proofs::Layouts::layouts), unfolding(dbc_records::specs::CanonicalText::nodes_layout))]
fn send_nodes<W: Sink>(out: &mut Out<'_, W>, nodes: &List<Name>) -> Result<(), WriteFault>
    ensures { Sends W.written out.old out.new result (layout_text (nodes_layout nodes.now)) }
{
    send_nodes_title(out)?;
    send_list::<SpacedName, Name, W>(out, nodes)?;
    send_line_end(out)
}

#[tactic(auto, using(crate::proofs::Layouts::layouts), unfolding(dbc_records::specs::CanonicalText::front_layout))]
fn send_front<W: Sink>(out: &mut Out<'_, W>, database: &Database) -> Result<(), WriteFault>
    ensures { Sends W.written out.old out.new result (layout_text (front_layout database.now)) }
{
    send_version(out, &database.version)?;
    send_symbols(out, &database.symbols)?;
    send_timing(out, &database.bit_timing)?;
    send_nodes(out, &database.nodes)?;
    send_list::<TableLine, TableRow, W>(out, &database.tables)
}

#[tactic(auto, using(crate::proofs::Layouts::layouts), unfolding(dbc_records::specs::CanonicalText::attributes_layout))]
fn send_attributes<W: Sink>(out: &mut Out<'_, W>, database: &Database) -> Result<(), WriteFault>
    ensures { Sends W.written out.old out.new result (layout_text (attributes_layout database.now)) }
{
    send_list::<DefinitionLine, AttrDef, W>(out, &database.definitions)?;
    send_list::<DefaultLine, AttrDefault, W>(out, &database.defaults)?;
    send_list::<AttributeLine, AttrRow, W>(out, &database.attributes)
}

#[tactic(auto, using(crate::proofs::Layouts::layouts), unfolding(dbc_records::specs::CanonicalText::rows_layout))]
fn send_rows<W: Sink>(out: &mut Out<'_, W>, database: &Database) -> Result<(), WriteFault>
    ensures { Sends W.written out.old out.new result (layout_text (rows_layout database.now)) }
{
    send_list::<ValuesLine, ValueRow, W>(out, &database.values)?;
    send_list::<FloatLine, FloatRow, W>(out, &database.floats)?;
    send_list::<MuxLine, MuxRow, W>(out, &database.muxes)?;
    send_list::<KeptLine, Kept, W>(out, &database.kept)
}

#[tactic(auto, using(crate::proofs::Layouts::layouts), unfolding(dbc_records::specs::CanonicalText::database_layout))]
fn send_database<W: Sink>(out: &mut Out<'_, W>, database: &Database) -> Result<(), WriteFault>
    ensures { Sends W.written out.old out.new result (layout_text (database_layout database.now)) }
{
    send_front(out, database)?;
    send_list::<MessageLines, Message, W>(out, &database.messages)?;
    send_list::<CommentLine, Comment, W>(out, &database.comments)?;
    send_attributes(out, database)?;
    send_rows(out, database)
}

/// Writes the canonical text of the database: its statements in the format's order of kinds, each on a line of its own with the
/// usual blanks, so that equal databases print alike. It allocates nothing.
///
/// If the sink fails, a prefix of the text was written. The text goes out in pieces of up to 16 KiB.
#[tactic(auto, using(byte_devices::proofs::Outs::flushes), unfolding(dbc_records::specs::CanonicalText::canonical_text))]
pub fn print<W: Sink>(database: &Database, sink: &mut W) -> Result<(), WriteFault>
    ensures { Prints (W.written sink.old) (W.written sink.new) result (canonical_text database.now) }
{
    let mut out = Out::new(sink);
    send_database(&mut out, database)?;
    out.flush()
}
