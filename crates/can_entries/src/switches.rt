//! The multiplexing parent of each signal of a message.
ghost use Rattle.std.specs.Prelude.{◌≡◌, IfOk, count_by, position};
ghost use Rattle.can_entries.specs.Switches.{index_named, only_switch, is_switch, mux_parent_of, mux_parents_of, under, just};
ghost use Rattle.can_entries.specs.Switches.{by_tag};

use crate::link::Link;
use crate::lookup::Lookup;
use crate::message_rows::MessageRows;
use crate::mux_parent::MuxParent;
use dbc_records::{Numbers, Range, Signal, Tag};
use dbc_values::{Copied, List, Memory, same};
use std::alloc::Global;

// The index of the signal of a name.
fn index_named(name: &[u8], signals: &[Signal]) -> Option<usize>
    ensures { result ≡ index_named name.now signals.now }
{
    signals
        .iter()
        .position(|signal| same(signal.name.as_bytes(), name))
}

fn is_switch(tag: Tag) -> bool
    ensures { result ≡ is_switch tag }
{
    match tag {
        Tag::Switch => true,
        _ => false,
    }
}

fn switches(signals: &[Signal]) -> usize
    ensures { result ≡ count_by (λ signal. is_switch signal.tag) signals.now }
{
    signals
        .iter()
        .filter(|signal| is_switch(signal.tag))
        .count()
}

fn first_switch(signals: &[Signal]) -> Option<usize>
    ensures { result ≡ position (λ signal. is_switch signal.tag) signals.now }
{
    signals.iter().position(|signal| is_switch(signal.tag))
}

// The index of the only signal with the multiplexer indicator `M`.
#[tactic(auto, unfolding(crate::specs::Switches::only_switch))]
fn only_switch(signals: &[Signal]) -> Option<usize>
    ensures { result ≡ only_switch signals.now }
{
    if switches(signals) == 1 {
        first_switch(signals)
    } else {
        None
    }
}

fn under(switch: Option<usize>, numbers: Numbers) -> MuxParent
    ensures { result ≡ under switch numbers }
{
    match switch {
        Some(switch) => MuxParent::Switch(Link::new(switch, numbers)),
        None => MuxParent::Missing,
    }
}

fn just(alloc: Global, number: u64) -> Result<Numbers, Memory>
    ensures { IfOk result (λ numbers. numbers ≡ just number) }
{
    let mut ranges = List::new(alloc);
    ranges.push(Range {
        first: number,
        last: number,
    })?;
    Numbers::of(alloc, ranges)
}

fn by_tag(alloc: Global, only: Option<usize>, tag: Tag) -> Result<MuxParent, Memory>
    ensures { IfOk result (λ mux_parent. mux_parent ≡ by_tag only tag) }
{
    match tag {
        Tag::Plain | Tag::Switch => Ok(MuxParent::Nothing),
        Tag::Muxed(number) | Tag::Both(number) => Ok(under(only, just(alloc, number)?)),
    }
}

// The multiplexing parent of a signal, if `only` is the only multiplexor (switch) of its message.
#[tactic(auto, unfolding(crate::specs::Switches::mux_parent_of))]
fn mux_parent_of<L: Lookup>(
    alloc: Global,
    rows: &MessageRows<'_, L>,
    signals: &[Signal],
    only: Option<usize>,
    signal: &Signal,
) -> Result<MuxParent, Memory>
    requires { only ≡ only_switch signals.now }
    ensures { IfOk result (λ mux_parent. mux_parent ≡ mux_parent_of rows.now signals.now signal.now) }
{
    match rows.mux(&signal.name) {
        Some(row) => {
            let numbers = row.ranges.copy()?;
            Ok(under(index_named(row.switch.as_bytes(), signals), numbers))
        }
        None => by_tag(alloc, only, signal.tag),
    }
}

/// The multiplexing parent of each signal of a message, in order.
pub fn mux_parents_of<L: Lookup>(
    alloc: Global,
    rows: &MessageRows<'_, L>,
    signals: &[Signal],
) -> Result<List<MuxParent>, Memory>
    ensures { IfOk result (λ mux_parents. mux_parents ≡ mux_parents_of rows.now signals.now) }
{
    let only = only_switch(signals);
    let mut mux_parents = List::with_capacity(alloc, signals.len())?;
    for signal in signals {
        mux_parents.push(mux_parent_of(alloc, rows, signals, only, signal)?)?;
    }
    Ok(mux_parents)
}
