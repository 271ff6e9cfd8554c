//! Questions about one signal: why it is refused, and what its multiplexing chain is.
ghost use Rattle.std.specs.Prelude.{◌≡◌, IfOk, IsSome, Some};
ghost use Rattle.std.specs.Option.{option_map};
ghost use Rattle.can_entries.specs.Rows.{rows_of};
ghost use Rattle.can_entries.specs.Walks.{walk_of};
ghost use Rattle.can_entries.specs.Switches.{mux_parents_of};
ghost use Rattle.can_layout.specs.Plans.{cause_of, signal_at};

use crate::refusal::{Cause, cause_of};
use can_entries::{Lookup, MessageRows, Walk, mux_parents_of, walk_of};
use dbc_records::{Database, Signal};
use dbc_values::Memory;
use std::alloc::Global;

/// Why a signal can't be decoded, by its index in a message, or `None` if it can.
#[tactic(auto, unfolding(crate::specs::Plans::signal_at))]
pub fn cause(database: &Database, index: usize, signal: usize) -> Option<Cause>
    requires { IsSome (signal_at database.now index signal) }
    ensures { Some result ≡ option_map (λ placed. cause_of (rows_of placed.0.head.number database.now) placed.0.head.size placed.1)
        (signal_at database.now index signal) }
{
    let message = &database.messages.as_slice()[index];
    let rows = MessageRows::of(database, message.head.number);
    cause_of(
        &rows,
        message.head.size,
        &message.signals.as_slice()[signal],
    )
}

/// The multiplexing chain from a signal, by its index in a message, from multiplexor to multiplexor.
#[tactic(auto, unfolding(crate::specs::Plans::signal_at))]
pub fn chain(
    alloc: Global,
    database: &Database,
    index: usize,
    signal: usize,
) -> Result<Walk, Memory>
    requires { IsSome (signal_at database.now index signal) }
    ensures { IfOk result (λ walk. Some walk ≡ option_map (λ placed. walk_of (mux_parents_of (rows_of placed.0.head.number
        database.now)
        placed.0.signals) signal) (signal_at database.now index signal)) }
{
    let message = &database.messages.as_slice()[index];
    let rows = MessageRows::of(database, message.head.number);
    let mux_parents = mux_parents_of(alloc, &rows, message.signals.as_slice())?;
    walk_of(alloc, mux_parents.as_slice(), signal)
}
