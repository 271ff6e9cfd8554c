//! The diagnostics of an edited database. The own ones of messages that the edit doesn't touch are kept.
ghost use Rattle.std.specs.Prelude.{◌≡◌, ◌++◌, IfOk, OnOk, map, filter};
ghost use Rattle.std.specs.List.{flat_map};
ghost use Rattle.session_log.specs.Elsewhere.{is_elsewhere};
ghost use Rattle.can_check.specs.MessageFaults.{own_faults, head_then_own};
ghost use Rattle.session_database.specs.Acceptance.{numbers_of};
ghost use Rattle.session_database.specs.Diagnosed.{counts_of};
ghost use Rattle.session_database.specs.CompiledDatabase.{AreDiagnosed};

use crate::accepted::Accepted;
use crate::diagnosing::Diagnosed;
use crate::recompiling::message_touched;
use crate::shown::{CompiledDatabase, messages_of};
use can_check::laws::{faults_in_order, own_rows_and_nodes_alone};
use can_check::{Diagnostic, Occupancy};
use can_layout::Lookup;
use can_references::{CrossReferences, row_faults};
use dbc_records::Message;
use dbc_values::Memory;
use session_log::reach_laws::others_stay;
use std::alloc::Global;

// The own diagnostics of the messages that have none of the CAN identifiers, in order.
fn kept_own<'a>(
    alloc: Global,
    numbers: &[u32],
    before: &'a CompiledDatabase,
) -> Result<Vec<&'a [Diagnostic]>, Memory>
    ensures { IfOk result (λ kept. map (λ one. one.now) kept.items ≡ map (own_faults before.now)
        (filter (is_elsewhere numbers.now) before.now.messages)) }
{
    let messages = messages_of(before.database());
    let mut kept = Vec::with_capacity(alloc, messages.len())?;
    let mut rest = before.own_parts();
    for message in messages {
        if let Some(own) = rest.next() {
            if !message_touched(numbers, message) {
                kept.push(own)?;
            }
        }
    }
    Ok(kept)
}

// The own diagnostics of messages that an edit doesn't touch: they are also what is found of them in the edited database.
fn kept_own_after<'a>(
    alloc: Global,
    accepted: &Accepted<'a>,
) -> Result<Vec<&'a [Diagnostic]>, Memory>
    ensures { IfOk result (λ kept. map (λ one. one.now) kept.items ≡ map (own_faults accepted.now.after)
        (filter (is_elsewhere (numbers_of accepted.now)) accepted.now.after.messages)) }
{
    others_stay();
    own_rows_and_nodes_alone();
    let kept = kept_own(alloc, accepted.numbers(), accepted.shown_before())?;
    Ok(kept)
}

// Adds the diagnostics of messages, in order: for a message that has none of the CAN identifiers its own ones are the next
// of the kept ones.
fn push_merged<'a, L: Lookup>(
    made: &mut Diagnosed,
    known: &CrossReferences<'a, L>,
    numbers: &[u32],
    kept: &Vec<&[Diagnostic]>,
    messages: &'a [Message],
) -> Result<(), Memory>
    requires { map (λ one. one.now) kept.now.items ≡ map (own_faults known.now) (filter (is_elsewhere numbers.now) messages.now) }
    ensures diagnostics { OnOk result (made.new.diagnostics.items ≡ made.old.diagnostics.items
        ++ flat_map (head_then_own known.now) messages.now) }
    ensures counts { OnOk result (made.new.counts.items ≡ made.old.counts.items ++ map (counts_of known.now) messages.now) }
{
    let mut occupancy = Occupancy::new(*kept.allocator());
    let mut rest = kept.as_slice();
    for message in messages {
        if message_touched(numbers, message) {
            occupancy = made.push_new(known, occupancy, message)?;
        } else if let [first, others @ ..] = rest {
            made.push_kept(known, message, first)?;
            rest = others;
        }
    }
    Ok(())
}

/// All diagnostics of the database that an accepted edit gives, whose entries are found by `lookup`. For messages that have none of
/// the edit's CAN identifiers, their own ones are copied.
pub(crate) fn diagnose_after<L: Lookup>(
    alloc: Global,
    accepted: &Accepted<'_>,
    lookup: &L,
) -> Result<Diagnosed, Memory>
    requires { L.whole lookup.now ≡ accepted.now.after }
    ensures { IfOk result (λ made. AreDiagnosed accepted.now.after made.diagnostics.items made.counts.items) }
{
    faults_in_order();
    let known = CrossReferences::among(alloc, lookup, accepted.numbers())?;
    let kept = kept_own_after(alloc, accepted)?;
    let messages = messages_of(known.database());
    let mut made = Diagnosed::with_space(alloc, messages.len())?;
    push_merged(&mut made, &known, accepted.numbers(), &kept, messages)?;
    made.push_entries(alloc, known)?;
    Ok(made)
}
