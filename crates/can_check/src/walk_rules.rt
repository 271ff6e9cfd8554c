//! The multiplexing chains from signals, and tests of them.
ghost use Rattle.std.specs.Prelude.{◌≡◌, IfOk};
ghost use Rattle.can_entries.specs.Rows.{rows_of};
ghost use Rattle.can_entries.specs.Switches.{walks_of};
ghost use Rattle.can_check.specs.SignalRules.{has_no_switch, is_loop};

use can_entries::{Lookup, MessageRows, Walk, message_walks};
use can_references::CrossReferences;
use dbc_records::Message;
use dbc_values::Memory;
use std::alloc::Global;

/// The multiplexing chains from the signals of a message, in order.
pub(crate) fn walks_in<'a, L: Lookup>(
    alloc: Global,
    known: &CrossReferences<'a, L>,
    message: &Message,
) -> Result<Vec<Walk>, Memory>
    ensures { IfOk result (λ walks. walks.items ≡ walks_of (rows_of message.now.head.number known.now) message.now.signals) }
{
    let rows = MessageRows::of(known.lookup(), message.head.number);
    message_walks(alloc, &rows, message.signals.as_slice())
}

/// A test of multiplexing chains.
pub(crate) trait WalkTest {
    ghost use Rattle.std.specs.Prelude.{Bool};
    ghost use Rattle.can_entries.specs.declared.walk.Walk.{Walk as PlainWalk};

    // Whether a multiplexing chain passes.
    ghost passes: { Self → PlainWalk → Bool };

    fn is_passed(&self, walk: &Walk) -> bool
        ensures { result ≡ passes self.now walk.now };
}

/// The signal's own multiplexor is not in the message.
#[derive(Drop)]
pub(crate) struct HasNoSwitch;

impl WalkTest for HasNoSwitch {
    ghost passes = { λ _. has_no_switch };

    fn is_passed(&self, walk: &Walk) -> bool {
        match walk {
            Walk::Absent { own } => *own,
            Walk::Chain(_) | Walk::Loop => false,
        }
    }
}

/// The multiplexing chain leads to a signal for the second time.
#[derive(Drop)]
pub(crate) struct IsLoop;

impl WalkTest for IsLoop {
    ghost passes = { λ _. is_loop };

    fn is_passed(&self, walk: &Walk) -> bool {
        match walk {
            Walk::Loop => true,
            Walk::Chain(_) | Walk::Absent { .. } => false,
        }
    }
}
