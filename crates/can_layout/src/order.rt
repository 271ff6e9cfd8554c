//! The order in which the runs of a message are looked up in data.

use crate::runs::Run;
use can_entries::MuxParent;
use dbc_values::Memory;
use std::alloc::Global;

// No further run under a multiplexor.
const NONE: usize = usize::MAX;

// The runs under a multiplexor, one after another.
#[derive(Clone, Copy)]
struct Under {
    // The first signal of the first run under this signal.
    first: usize,
    // The first signal of the next run under the same multiplexor as this one.
    next: usize,
}

// Whether the parent multiplexor of a signal has one itself.
fn is_deep(runs: &[Run], run: &Run) -> bool {
    match &run.parent {
        MuxParent::Switch(link) => match runs.get(link.switch) {
            Some(parent) => matches!(parent.parent, MuxParent::Switch(_)),
            None => false,
        },
        _ => false,
    }
}

// Puts the run that begins at an index before those under the same multiplexor.
fn put_under(under: &mut [Under], index: usize, switch: usize) {
    if index >= under.len() || switch >= under.len() {
        return;
    }
    under[index].next = under[switch].first;
    under[switch].first = index;
}

// For each signal the runs under it.
fn under_of(alloc: Global, runs: &[Run]) -> Result<Vec<Under>, Memory> {
    let none = Under {
        first: NONE,
        next: NONE,
    };
    let mut under = vec![in alloc; none; runs.len()]?;
    for passed in 0..runs.len() {
        let index = runs.len() - 1 - passed;
        let run = &runs[index];
        if let MuxParent::Switch(link) = &run.parent {
            if run.first == index {
                put_under(&mut under, index, link.switch);
            }
        }
    }
    Ok(under)
}

// Whether some run is under a signal of the run that begins at an index.
fn has_under(runs: &[Run], under: &[Under], first: usize) -> bool {
    let end = runs.get(first).map_or(first, |run| run.end);
    for signal in first..end {
        if let Some(of) = under.get(signal)
            && of.first != NONE
        {
            return true;
        }
    }
    false
}

// Adds the runs under a signal: only those that have runs under them, or only those that have none.
fn push_under(
    order: &mut Vec<usize>,
    runs: &[Run],
    under: &[Under],
    signal: usize,
    parents: bool,
) -> Result<(), Memory> {
    let Some(of) = under.get(signal) else {
        return Ok(());
    };
    let mut index = of.first;
    for _passed in 0..under.len() {
        let Some(of) = under.get(index) else {
            return Ok(());
        };
        if has_under(runs, under, index) == parents {
            order.push(index)?;
        }
        index = of.next;
    }
    Ok(())
}

// Adds the runs that have runs under them, each after the run of its parent multiplexor.
fn push_parents(order: &mut Vec<usize>, runs: &[Run], under: &[Under]) -> Result<(), Memory> {
    for (signal, run) in runs.iter().enumerate() {
        if matches!(run.parent, MuxParent::Nothing) {
            push_under(order, runs, under, signal, true)?;
        }
    }
    for passed in 0..runs.len() {
        let Some(first) = order.get(passed).copied() else {
            return Ok(());
        };
        let end = runs.get(first).map_or(first, |run| run.end);
        for signal in first..end {
            push_under(order, runs, under, signal, true)?;
        }
    }
    Ok(())
}

/// The order in which runs are looked up, by their first signals. It doesn't change what is found, but how often the same
/// multiplexor is looked up.
#[derive(Drop)]
pub(crate) struct Order {
    /// If some multiplexor has a parent: the runs that have one, each after the run of that. Otherwise none.
    pub(crate) runs: Vec<usize>,
    /// How many of them, at the front, have runs under them.
    pub(crate) parents: usize,
}

/// The order of the runs of a message.
pub(crate) fn order_of(alloc: Global, runs: &[Run]) -> Result<Order, Memory> {
    if !runs.iter().any(|run| is_deep(runs, run)) {
        return Ok(Order {
            runs: Vec::new(alloc),
            parents: 0,
        });
    }
    let under = under_of(alloc, runs)?;
    let mut order = Vec::with_capacity(alloc, runs.len())?;
    push_parents(&mut order, runs, &under)?;
    let parents = order.len();
    for signal in 0..runs.len() {
        push_under(&mut order, runs, &under, signal, false)?;
    }
    Ok(Order {
        runs: order,
        parents,
    })
}

// No run under the signal was seen.
const UNSEEN: usize = usize::MAX;

// One was, or several in a row.
const SEEN: usize = usize::MAX - 1;

// The multiplexor of a run that begins at an index.
fn switch_of(run: &Run, index: usize) -> Option<usize> {
    match &run.parent {
        MuxParent::Switch(link) if run.first == index => Some(link.switch),
        _ => None,
    }
}

// How often a run has another multiplexor than the previous run that has one.
fn changes(runs: &[Run]) -> usize {
    let mut last = None;
    let mut count: usize = 0;
    for (index, run) in runs.iter().enumerate() {
        let switch = switch_of(run, index);
        if switch.is_some() && switch != last {
            last = switch;
            count = count.saturating_add(1);
        }
    }
    count
}

// Gives the multiplexor a slot, the next one, if it is seen again.
fn see(slots: &mut [usize], switch: usize, next: usize) -> usize {
    if switch >= slots.len() {
        return next;
    }
    match slots[switch] {
        UNSEEN => {
            slots[switch] = SEEN;
            next
        }
        SEEN => {
            slots[switch] = next;
            next.saturating_add(1)
        }
        _ => next,
    }
}

// A slot, from 0 on, for each multiplexor that runs have again after another one.
fn slots_of(alloc: Global, runs: &[Run]) -> Result<Vec<usize>, Memory> {
    let mut slots = vec![in alloc; UNSEEN; runs.len()]?;
    let mut last = None;
    let mut next = 0;
    for (index, run) in runs.iter().enumerate() {
        let found = switch_of(run, index);
        if let Some(switch) = found
            && found != last
        {
            next = see(&mut slots, switch, next);
            last = found;
        }
    }
    Ok(slots)
}

/// A slot, by its index, for each multiplexor that runs have again after another one, if there is such a multiplexor. It doesn't
/// change what is found, but how often the same multiplexor is looked up.
pub(crate) fn slots_unless_in_row(alloc: Global, runs: &[Run]) -> Result<Vec<usize>, Memory> {
    if changes(runs) > 2 {
        slots_of(alloc, runs)
    } else {
        Ok(Vec::new(alloc))
    }
}
