//! Value descriptions.
ghost use Rattle.std.specs.Prelude.{◌≡◌, false, [], ◌∷◌, ◌++◌, IfOk, OnOk};
ghost use Rattle.std.specs.List.{flat_map};
ghost use Rattle.can_diagnostics.specs.Diagnostics.{of_value};
ghost use Rattle.can_entries.specs.Rows.{rows_of};
ghost use Rattle.can_check.specs.MessageFaults.{named, out_of_range, repeated_in};
ghost use Rattle.can_check.specs.MessageFaults.{value_faults};

use can_diagnostics::{Code, Diagnostic};
use can_entries::Lookup;
use can_references::CrossReferences;
use dbc_records::{Head, Message, Signal};
use dbc_values::Memory;

// Adds a diagnostic of each of these values of a signal.
fn push_each(
    found: &mut Vec<Diagnostic>,
    code: Code,
    head: &Head,
    signal: &Signal,
    values: &[i128],
) -> Result<(), Memory>
    ensures { OnOk result (found.new.items ≡ found.old.items ++ flat_map (λ value. of_value code head.now signal.now value ∷ [])
        values.now) }
{
    for value in values {
        found.push(Diagnostic::of_value(code, head, signal, *value)?)?;
    }
    Ok(())
}

// Adds the value descriptions that a signal never has, and returns whether one of their raw values may be repeated. They are
// gathered in `values`, whatever is there before.
#[inline(always)]
fn push_out_of_range<'a, L: Lookup>(
    found: &mut Vec<Diagnostic>,
    values: &mut Vec<i128>,
    known: &CrossReferences<'a, L>,
    head: &Head,
    signal: &'a Signal,
) -> Result<bool, Memory>
    ensures found { OnOk result (found.new.items ≡ found.old.items ++ flat_map (out_of_range head.now signal.now)
        (named (rows_of head.now.number known.now) signal.now)) }
    ensures repeated { IfOk result (λ repeats. repeats ≡ false → repeated_in (rows_of head.now.number known.now) head.now
        signal.now ≡ []) }
{
    values.clear();
    let repeats = known.push_out_of_range(values, head.number, signal)?;
    let out_of_range = values.as_slice();
    push_each(found, Code::ValueOutOfRange, head, signal, out_of_range)?;
    Ok(repeats)
}

// The same for several signals, in order.
fn push_all_out_of_range<'a, L: Lookup>(
    found: &mut Vec<Diagnostic>,
    known: &CrossReferences<'a, L>,
    head: &Head,
    signals: &'a [Signal],
) -> Result<bool, Memory>
    ensures found { OnOk result (found.new.items ≡ found.old.items ++ flat_map (λ signal. flat_map
        (out_of_range head.now signal) (named (rows_of head.now.number known.now) signal)) signals.now) }
    ensures repeated { IfOk result (λ repeats. repeats ≡ false → flat_map (repeated_in (rows_of head.now.number known.now)
        head.now) signals.now ≡ []) }
{
    let mut values = Vec::new(*found.allocator());
    let mut repeats = false;
    for signal in signals {
        if push_out_of_range(found, &mut values, known, head, signal)? {
            repeats = true;
        }
    }
    Ok(repeats)
}

// Adds the value descriptions of a signal whose raw value is repeated. They are gathered in `values`, whatever is there before.
#[inline(always)]
fn push_repeated<'a, L: Lookup>(
    found: &mut Vec<Diagnostic>,
    values: &mut Vec<i128>,
    known: &CrossReferences<'a, L>,
    head: &Head,
    signal: &'a Signal,
) -> Result<(), Memory>
    ensures { OnOk result (found.new.items ≡ found.old.items ++ repeated_in (rows_of head.now.number known.now) head.now
        signal.now) }
{
    values.clear();
    known.push_repeated(values, head.number, signal)?;
    push_each(found, Code::RepeatedValue, head, signal, values.as_slice())?;
    Ok(())
}

// The same for several signals, in order.
fn push_all_repeated<'a, L: Lookup>(
    found: &mut Vec<Diagnostic>,
    known: &CrossReferences<'a, L>,
    head: &Head,
    signals: &'a [Signal],
) -> Result<(), Memory>
    ensures { OnOk result (found.new.items ≡ found.old.items ++ flat_map (repeated_in (rows_of head.now.number known.now) head.now)
        signals.now) }
{
    let mut values = Vec::new(*found.allocator());
    for signal in signals {
        push_repeated(found, &mut values, known, head, signal)?;
    }
    Ok(())
}

/// Adds the diagnostics of value descriptions: codes 14 and 15. Signals are visited again only if a raw value may be repeated.
pub(crate) fn push_value_faults<'a, L: Lookup>(
    found: &mut Vec<Diagnostic>,
    known: &CrossReferences<'a, L>,
    message: &'a Message,
) -> Result<(), Memory>
    ensures { OnOk result (found.new.items ≡ found.old.items ++ value_faults (rows_of message.now.head.number known.now)
        message.now) }
{
    let signals = message.signals.as_slice();
    if push_all_out_of_range(found, known, &message.head, signals)? {
        push_all_repeated(found, known, &message.head, signals)?;
    }
    Ok(())
}
