//! The multiplexing chains from all signals of a message.
ghost use Rattle.std.specs.Prelude.{◌≡◌, IfOk, map};
ghost use Rattle.std.specs.List.{range_with_len};
ghost use Rattle.can_entries.specs.Walks.{walk_of};
ghost use Rattle.can_entries.specs.Switches.{walks_of};

use crate::lookup::Lookup;
use crate::message_rows::MessageRows;
use crate::mux_parent::MuxParent;
use crate::switches::mux_parents_of;
use crate::walk::{Walk, walk_of};
use dbc_records::Signal;
use dbc_values::Memory;
use std::alloc::Global;

// The multiplexing chains from the first signals, of all those that have these parents.
fn walks_below(alloc: Global, mux_parents: &[MuxParent], count: usize) -> Result<Vec<Walk>, Memory>
    ensures { IfOk result (λ walks. walks.items ≡ map (walk_of mux_parents.now) (range_with_len 0 count)) }
{
    let mut walks = Vec::with_capacity(alloc, count)?;
    for index in 0..count {
        walks.push(walk_of(alloc, mux_parents, index)?)?;
    }
    Ok(walks)
}

/// The multiplexing chains from all signals of a message, in order. `rows` are the entries of the message's CAN identifier.
pub fn message_walks<L: Lookup>(
    alloc: Global,
    rows: &MessageRows<'_, L>,
    signals: &[Signal],
) -> Result<Vec<Walk>, Memory>
    ensures { IfOk result (λ walks. walks.items ≡ walks_of rows.now signals.now) }
{
    let mux_parents = mux_parents_of(alloc, rows, signals)?;
    walks_below(alloc, mux_parents.as_slice(), signals.len())
}
