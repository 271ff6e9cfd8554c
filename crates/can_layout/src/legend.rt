//! The diagram of a message, and its legend.
ghost use Rattle.std.specs.Prelude.{◌≡◌, ◌++◌, IfOk, OnOk, decimal};
ghost use Rattle.can_bits.specs.Grids.{right};
ghost use Rattle.std.specs.List.{flat_map, enumerate_from};
ghost use Rattle.can_entries.specs.Switches.{mux_parents_of};
ghost use Rattle.can_layout.specs.Diagrams.{signal_text, legend_line, legend_text, picture_in};
ghost use Rattle.can_layout.specs.Layouts.{legend_by};

use crate::layout::{Layout, SignalLayout};
use crate::text::{push_bytes, push_cause, push_span, push_title, push_walk};
use can_bits::{fields_of, push_grid, push_right};
use can_entries::{Lookup, MuxParent, Walk, walk_of};
use dbc_records::{Message, Signal};
use dbc_values::Memory;
use itoa::Buffer;
use std::alloc::Global;

// An index, right-aligned to four columns.
fn push_index(text: &mut Vec<u8>, index: usize) -> Result<(), Memory>
    ensures { OnOk result (text.new.items ≡ text.old.items ++ right (decimal index)) }
{
    let mut space = Buffer::new();
    push_right(text, space.format(index).as_bytes())
}

// A signal, and where its bits are.
#[tactic(auto, unfolding(crate::specs::Diagrams::signal_text))]
fn push_signal(text: &mut Vec<u8>, index: usize, signal: &Signal) -> Result<(), Memory>
    ensures { OnOk result (text.new.items ≡ text.old.items ++ signal_text index signal.now) }
{
    push_index(text, index)?;
    push_bytes(text, b" ")?;
    push_bytes(text, signal.name.as_bytes())?;
    push_bytes(text, b" ")?;
    push_span(text, signal)
}

// A signal, with what keeps it from being decoded and with its multiplexing chain.
#[tactic(auto, unfolding(crate::specs::Diagrams::legend_line))]
fn push_legend_line(
    text: &mut Vec<u8>,
    signals: &[Signal],
    index: usize,
    layout: &SignalLayout<'_>,
    walk: &Walk,
) -> Result<(), Memory>
    ensures { OnOk result (text.new.items ≡ text.old.items ++ legend_line signals.now index layout.now.signal layout.now.cause
        walk.now) }
{
    push_signal(text, index, layout.signal())?;
    push_cause(text, layout.cause())?;
    push_walk(text, signals, walk)?;
    push_bytes(text, b"\n")
}

// A line for each signal.
fn push_lines(
    text: &mut Vec<u8>,
    signals: &[Signal],
    mux_parents: &[MuxParent],
    layouts: &[SignalLayout<'_>],
) -> Result<(), Memory>
    ensures { OnOk result (text.new.items ≡ text.old.items ++ flat_map (λ placed. legend_by signals.now mux_parents.now placed.0
        placed.1) (enumerate_from 0 layouts.now)) }
{
    for (index, layout) in layouts.iter().enumerate() {
        let walk = walk_of(*text.allocator(), mux_parents, index)?;
        push_legend_line(text, signals, index, layout, &walk)?;
    }
    Ok(())
}

// The same for a message of this layout.
fn push_legend<L: Lookup>(text: &mut Vec<u8>, layout: &Layout<'_, L>) -> Result<(), Memory>
    ensures { OnOk result (text.new.items ≡ text.old.items ++ legend_text layout.now.rows
        (mux_parents_of layout.now.rows layout.now.message.signals) layout.now.message.head.size layout.now.message.signals) }
{
    let signals = layout.message().signals.as_slice();
    push_lines(text, signals, layout.mux_parents(), layout.signals())?;
    Ok(())
}

// Space for the diagram of most messages: a line of 38 bytes for each byte, and one for each signal.
fn space_for(message: &Message) -> usize {
    64 + 40 * usize::from(message.head.size) + 48 * message.signals.as_slice().len().min(256)
}

/// The diagram of a message of this layout.
#[tactic(auto, unfolding(crate::specs::Diagrams::picture_in))]
pub(crate) fn picture_in<L: Lookup>(
    alloc: Global,
    layout: &Layout<'_, L>,
) -> Result<Vec<u8>, Memory>
    ensures { IfOk result (λ picture. picture.items ≡ picture_in layout.now.rows layout.now.message) }
{
    let message = layout.message();
    let fields = fields_of(alloc, message.signals.as_slice())?;
    let mut text = Vec::with_capacity(alloc, space_for(message))?;
    push_title(&mut text, &message.head)?;
    push_grid(&mut text, message.head.size, fields.as_slice())?;
    push_legend(&mut text, layout)?;
    Ok(text)
}
