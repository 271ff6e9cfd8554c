//! The diagnostics of a message by its CAN identifier and its name.
ghost use Rattle.std.specs.Prelude.{◌≡◌, ◌++◌, OnOk};
ghost use Rattle.can_references.specs.HeadFaults.{is_pseudo, bad_identifier, shared_identifier, shared_name, in_shared_group};
ghost use Rattle.can_references.specs.HeadFaults.{shared_group, head_faults};

use crate::cross_references::CrossReferences;
use can_diagnostics::{Code, Diagnostic};
use can_entries::{Lookup, is_bad_number};
use dbc_records::{Head, Message};
use dbc_values::Memory;

// The CAN identifier of the message that holds signals of no message.
const PSEUDO_NUMBER: u32 = 0xC000_0000;

/// Whether a message holds signals of no message.
pub fn is_pseudo(head: &Head) -> bool
    ensures { result ≡ is_pseudo head.now }
{
    head.number == PSEUDO_NUMBER
}

#[tactic(auto, unfolding(crate::specs::HeadFaults::bad_identifier))]
fn push_bad_identifier(found: &mut Vec<Diagnostic>, message: &Message) -> Result<(), Memory>
    ensures { OnOk result (found.new.items ≡ found.old.items ++ bad_identifier message.now) }
{
    let head = &message.head;
    if is_bad_number(head.number) && !is_pseudo(head) {
        found.push(Diagnostic::of_message(Code::BadIdentifier, head)?)?;
    }
    Ok(())
}

#[tactic(auto, unfolding(crate::specs::HeadFaults::shared_identifier))]
fn push_shared_identifier<L: Lookup>(
    found: &mut Vec<Diagnostic>,
    known: &CrossReferences<'_, L>,
    message: &Message,
) -> Result<(), Memory>
    ensures { OnOk result (found.new.items ≡ found.old.items ++ shared_identifier known.now message.now) }
{
    let head = &message.head;
    if known.is_shared_number(head.number) {
        found.push(Diagnostic::of_message(Code::SharedIdentifier, head)?)?;
    }
    Ok(())
}

#[tactic(auto, unfolding(crate::specs::HeadFaults::shared_name))]
fn push_shared_name<'a, L: Lookup>(
    found: &mut Vec<Diagnostic>,
    known: &CrossReferences<'a, L>,
    message: &'a Message,
) -> Result<(), Memory>
    ensures { OnOk result (found.new.items ≡ found.old.items ++ shared_name known.now message.now) }
{
    let head = &message.head;
    if known.is_shared_name(&head.name) {
        found.push(Diagnostic::of_message(Code::SharedName, head)?)?;
    }
    Ok(())
}

// Adds the diagnostic of a message whose parameter group other messages have, too.
fn push_in_group<L: Lookup>(
    found: &mut Vec<Diagnostic>,
    known: &CrossReferences<'_, L>,
    head: &Head,
    group: Option<u32>,
) -> Result<(), Memory>
    ensures { OnOk result (found.new.items ≡ found.old.items ++ in_shared_group known.now head.now group) }
{
    if let Some(group) = group {
        if known.is_shared_group(group) {
            found.push(Diagnostic::of_message(Code::SharedGroup, head)?)?;
        }
    }
    Ok(())
}

#[tactic(auto, unfolding(crate::specs::HeadFaults::shared_group))]
fn push_shared_group<L: Lookup>(
    found: &mut Vec<Diagnostic>,
    known: &CrossReferences<'_, L>,
    message: &Message,
) -> Result<(), Memory>
    ensures { OnOk result (found.new.items ≡ found.old.items ++ shared_group known.now message.now) }
{
    let head = &message.head;
    push_in_group(found, known, head, known.group_of(head.number))
}

/// Adds the diagnostics of a message's CAN identifier and name: codes 1 to 4.
#[tactic(auto, using(crate::proofs::Pushing::pushed_then), unfolding(crate::specs::HeadFaults::head_faults))]
pub fn push_head_faults<'a, L: Lookup>(
    found: &mut Vec<Diagnostic>,
    known: &CrossReferences<'a, L>,
    message: &'a Message,
) -> Result<(), Memory>
    ensures { OnOk result (found.new.items ≡ found.old.items ++ head_faults known.now message.now) }
{
    push_bad_identifier(found, message)?;
    push_shared_identifier(found, known, message)?;
    push_shared_name(found, known, message)?;
    push_shared_group(found, known, message)
}
