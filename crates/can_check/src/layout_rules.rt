//! Signals that are outside their message, and the multiplexing chains of signals.
ghost use Rattle.std.specs.Prelude.{◌≡◌, ◌++◌, OnOk, slice_get};
ghost use Rattle.can_diagnostics.specs.Diagnostics.{of_signal};
ghost use Rattle.can_references.specs.Finding.{where_true};
ghost use Rattle.can_check.specs.MessageFaults.{walk_passes, walks_where, outside, no_switch, bad_mux_row};
ghost use Rattle.can_check.specs.MessageFaults.{switch_loop, switch_faults};

use crate::signal_rules::{HasBadRow, IsOutside, push_where};
use crate::walk_rules::{HasNoSwitch, IsLoop, WalkTest};
use can_diagnostics::{Code, Diagnostic};
use can_entries::{Lookup, MessageRows, Walk};
use can_references::is_pseudo;
use dbc_records::{Head, Message, Signal};
use dbc_values::Memory;

/// Adds the signals that have a bit outside the message: code 5.
#[tactic(auto, unfolding(crate::specs::MessageFaults::outside))]
pub(crate) fn push_outside(found: &mut Vec<Diagnostic>, message: &Message) -> Result<(), Memory>
    ensures { OnOk result (found.new.items ≡ found.old.items ++ outside message.now) }
{
    let head = &message.head;
    if is_pseudo(head) {
        return Ok(());
    }
    let test = IsOutside { size: head.size };
    push_where(
        found,
        Code::Outside,
        head,
        &test,
        message.signals.as_slice(),
    )
}

// The multiplexing chain from a signal at an index passes a test.
fn passes_at<T: WalkTest>(test: &T, walks: &[Walk], index: usize) -> bool
    ensures { result ≡ walk_passes (T.passes test.now) (slice_get walks.now index) }
{
    match walks.get(index) {
        Some(walk) => test.is_passed(walk),
        None => false,
    }
}

// Adds the diagnostic of a signal if the test holds.
fn push_if(
    found: &mut Vec<Diagnostic>,
    test: bool,
    code: Code,
    head: &Head,
    signal: &Signal,
) -> Result<(), Memory>
    ensures { OnOk result (found.new.items ≡ found.old.items ++ where_true test (of_signal code head.now signal.now)) }
{
    if test {
        found.push(Diagnostic::of_signal(code, head, signal)?)?;
    }
    Ok(())
}

// Adds the diagnostic of each signal whose multiplexing chain passes a test.
fn push_walks<T: WalkTest>(
    found: &mut Vec<Diagnostic>,
    code: Code,
    head: &Head,
    test: &T,
    signals: &[Signal],
    walks: &[Walk],
) -> Result<(), Memory>
    ensures { OnOk result (found.new.items ≡ found.old.items ++ walks_where code head.now (T.passes test.now) signals.now
        walks.now) }
{
    for (index, signal) in signals.iter().enumerate() {
        push_if(found, passes_at(test, walks, index), code, head, signal)?;
    }
    Ok(())
}

#[tactic(auto, unfolding(crate::specs::MessageFaults::no_switch))]
fn push_no_switch(
    found: &mut Vec<Diagnostic>,
    message: &Message,
    walks: &[Walk],
) -> Result<(), Memory>
    ensures { OnOk result (found.new.items ≡ found.old.items ++ no_switch message.now walks.now) }
{
    push_walks(
        found,
        Code::NoSwitch,
        &message.head,
        &HasNoSwitch,
        message.signals.as_slice(),
        walks,
    )
}

#[tactic(auto, unfolding(crate::specs::MessageFaults::bad_mux_row))]
fn push_bad_mux_row<L: Lookup>(
    found: &mut Vec<Diagnostic>,
    rows: &MessageRows<'_, L>,
    message: &Message,
) -> Result<(), Memory>
    ensures { OnOk result (found.new.items ≡ found.old.items ++ bad_mux_row rows.now message.now) }
{
    let signals = message.signals.as_slice();
    let test = HasBadRow { rows, signals };
    push_where(found, Code::BadMuxRow, &message.head, &test, signals)
}

#[tactic(auto, unfolding(crate::specs::MessageFaults::switch_loop))]
fn push_switch_loop(
    found: &mut Vec<Diagnostic>,
    message: &Message,
    walks: &[Walk],
) -> Result<(), Memory>
    ensures { OnOk result (found.new.items ≡ found.old.items ++ switch_loop message.now walks.now) }
{
    push_walks(
        found,
        Code::SwitchLoop,
        &message.head,
        &IsLoop,
        message.signals.as_slice(),
        walks,
    )
}

/// Adds the diagnostics of the multiplexing chains of a message's signals: codes 7 to 9.
#[tactic(auto, using(can_references::proofs::Pushing::pushed_then), unfolding(crate::specs::MessageFaults::switch_faults))]
pub(crate) fn push_switch_faults<L: Lookup>(
    found: &mut Vec<Diagnostic>,
    rows: &MessageRows<'_, L>,
    message: &Message,
    walks: &[Walk],
) -> Result<(), Memory>
    ensures { OnOk result (found.new.items ≡ found.old.items ++ switch_faults rows.now message.now walks.now) }
{
    push_no_switch(found, message, walks)?;
    push_bad_mux_row(found, rows, message)?;
    push_switch_loop(found, message, walks)
}
