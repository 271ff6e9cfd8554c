//! Signals of a message that share a bit and can be active at once.
ghost use Rattle.std.specs.Prelude.{◌≡◌, ◌++◌, ◌<◌, ◌≤◌, OnOk, IfOk, length, slice_get, option_map};
ghost use Rattle.std.specs.List.{flat_map, range_with_len};
ghost use Rattle.can_overlap.specs.Overlaps.{overlapping, pairs_from};
ghost use Rattle.can_check.specs.MessageFaults.{pair_between, pair_at, overlaps};
ghost use Rattle.can_check.specs.Reports.{Takes};

use crate::report::Report;
use can_bits::{Field, fields_of};
use can_diagnostics::{Code, Diagnostic};
use can_entries::Walk;
use can_overlap::laws::pairs_by_signal;
use can_overlap::{Marked, Occupancy, Pair, are_disjoint_in_sequence};
use can_references::is_pseudo;
use dbc_records::{Head, Message, Signal};
use dbc_values::{Memory, Stop};
use std::alloc::Global;

// The signal at an index.
fn signal_at(message: &Message, index: usize) -> Option<&Signal>
    ensures { option_map (λ signal. signal.now) result ≡ slice_get message.now.signals index }
{
    message.signals.as_slice().get(index)
}

fn push_between(
    found: &mut Vec<Diagnostic>,
    head: &Head,
    first: Option<&Signal>,
    second: Option<&Signal>,
) -> Result<(), Memory>
    ensures { OnOk result (found.new.items ≡ found.old.items ++ pair_between head.now (option_map (λ signal. signal.now)
        first.entry) (option_map (λ signal. signal.now) second.entry)) }
{
    if let (Some(first), Some(second)) = (first, second) {
        found.push(Diagnostic::of_pair(Code::Overlap, head, first, second)?)?;
    }
    Ok(())
}

fn push_pair(found: &mut Vec<Diagnostic>, message: &Message, pair: Pair) -> Result<(), Memory>
    ensures { OnOk result (found.new.items ≡ found.old.items ++ pair_at message.now pair) }
{
    let first = signal_at(message, pair.first);
    let second = signal_at(message, pair.second);
    push_between(found, &message.head, first, second)
}

fn push_pairs(found: &mut Vec<Diagnostic>, message: &Message, pairs: &[Pair]) -> Result<(), Memory>
    ensures { OnOk result (found.new.items ≡ found.old.items ++ flat_map (pair_at message.now) pairs.now) }
{
    for pair in pairs {
        push_pair(found, message, *pair)?;
    }
    Ok(())
}

// The pairs of the signal at an index with later ones.
fn pairs_of(
    alloc: Global,
    message: &Message,
    marked: &Marked<'_>,
    first: usize,
) -> Result<Vec<Diagnostic>, Memory>
    requires { first < length marked.now.fields }
    ensures { IfOk result (λ found. found.items ≡ flat_map (pair_at message.now) (pairs_from marked.now.fields marked.now.walks
        first)) }
{
    let mut pairs = Vec::new(alloc);
    marked.push_pairs(&mut pairs, first)?;
    let mut found = Vec::new(alloc);
    push_pairs(&mut found, message, pairs.as_slice())?;
    Ok(found)
}

// Reports the pairs of the signal at an index with later ones.
fn report_pairs<T: Report>(
    to: &mut T,
    alloc: Global,
    message: &Message,
    marked: &Marked<'_>,
    first: usize,
) -> Result<(), Stop>
    requires { first < length marked.now.fields }
    ensures { Takes T.Took T.Stopped to.old to.new result (flat_map (pair_at message.now) (pairs_from marked.now.fields
        marked.now.walks first)) }
{
    match pairs_of(alloc, message, marked, first) {
        Ok(found) => to.take(found),
        Err(Memory) => Err(Stop::Memory),
    }
}

// Reports the pairs of all signals, each with later ones.
fn report_marked<T: Report>(
    to: &mut T,
    alloc: Global,
    message: &Message,
    marked: &Marked<'_>,
    count: usize,
) -> Result<(), Stop>
    requires { count ≤ length marked.now.fields }
    ensures { Takes T.Took T.Stopped to.old to.new result (flat_map (λ first. flat_map (pair_at message.now)
        (pairs_from marked.now.fields marked.now.walks first)) (range_with_len 0 count)) }
{
    for first in 0..count {
        report_pairs(to, alloc, message, marked, first)?;
    }
    Ok(())
}

// Reports the pairs of signals that are in these fields. Most fields follow one another, and then there are no pairs.
fn report_laid<T: Report>(
    to: &mut T,
    occupancy: Occupancy,
    message: &Message,
    fields: &[Field],
    walks: &[Walk],
) -> Result<Occupancy, Stop>
    requires lengths { length walks.now ≡ length fields.now }
    requires few { length fields.now ≤ 999 }
    ensures { Takes T.Took T.Stopped to.old to.new result (flat_map (pair_at message.now) (overlapping fields.now walks.now)) }
{
    if are_disjoint_in_sequence(fields) {
        return Ok(occupancy);
    }
    pairs_by_signal(fields, walks);
    let count = fields.len().saturating_sub(1);
    let alloc = occupancy.allocator();
    let marked = occupancy.marked(fields, walks)?;
    report_marked(to, alloc, message, &marked, count)?;
    Ok(marked.cleared())
}

/// Reports the pairs of signals that overlap: code 6. The table for them is empty before and after.
#[tactic(auto, unfolding(crate::specs::MessageFaults::overlaps, dbc_records::specs::Records::signals_fit))]
pub(crate) fn report_overlaps<T: Report>(
    to: &mut T,
    occupancy: Occupancy,
    message: &Message,
    walks: &[Walk],
) -> Result<Occupancy, Stop>
    requires { length walks.now ≡ length message.now.signals }
    ensures { Takes T.Took T.Stopped to.old to.new result (overlaps message.now walks.now) }
{
    if is_pseudo(&message.head) {
        return Ok(occupancy);
    }
    let fields = fields_of(occupancy.allocator(), message.signals.as_slice())?;
    report_laid(to, occupancy, message, fields.as_slice(), walks)
}
