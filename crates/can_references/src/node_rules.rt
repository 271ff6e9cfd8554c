//! Nodes that are not in the list of nodes.
ghost use Rattle.std.specs.Prelude.{◌≡◌, ◌++◌, OnOk};
ghost use Rattle.std.specs.List.{flat_map};
ghost use Rattle.can_references.specs.HeadFaults.{unknown_sender, unknown_receiver, unknown_receivers, unknown_nodes};

use crate::cross_references::CrossReferences;
use can_diagnostics::{Code, Diagnostic};
use can_entries::Lookup;
use dbc_records::{Head, Message, Signal};
use dbc_values::{Memory, Name};

fn push_unknown_sender<'a, L: Lookup>(
    found: &mut Vec<Diagnostic>,
    known: &CrossReferences<'a, L>,
    head: &'a Head,
) -> Result<(), Memory>
    ensures { OnOk result (found.new.items ≡ found.old.items ++ unknown_sender known.now head.now) }
{
    if !known.is_known_node(head.sender.as_bytes()) {
        found.push(Diagnostic::of_sender(Code::UnknownNode, head)?)?;
    }
    Ok(())
}

fn push_unknown_nodes_of<'a, L: Lookup>(
    found: &mut Vec<Diagnostic>,
    known: &CrossReferences<'a, L>,
    head: &Head,
    signal: &Signal,
    nodes: &'a [Name],
) -> Result<(), Memory>
    ensures { OnOk result (found.new.items ≡ found.old.items ++ flat_map (unknown_receiver known.now head.now signal.now)
        nodes.now) }
{
    for node in nodes {
        if !known.is_known_node(node.as_bytes()) {
            found.push(Diagnostic::of_receiver(Code::UnknownNode, head, signal, node)?)?;
        }
    }
    Ok(())
}

fn push_unknown_receivers<'a, L: Lookup>(
    found: &mut Vec<Diagnostic>,
    known: &CrossReferences<'a, L>,
    head: &'a Head,
    signal: &'a Signal,
) -> Result<(), Memory>
    ensures { OnOk result (found.new.items ≡ found.old.items ++ unknown_receivers known.now head.now signal.now) }
{
    push_unknown_nodes_of(found, known, head, signal, signal.receivers.as_slice())
}

fn push_all_unknown_receivers<'a, L: Lookup>(
    found: &mut Vec<Diagnostic>,
    known: &CrossReferences<'a, L>,
    head: &'a Head,
    signals: &'a [Signal],
) -> Result<(), Memory>
    ensures { OnOk result (found.new.items ≡ found.old.items ++ flat_map (unknown_receivers known.now head.now) signals.now) }
{
    for signal in signals {
        push_unknown_receivers(found, known, head, signal)?;
    }
    Ok(())
}

/// Adds the sender and the receivers of a message that are no nodes of the database: code 13.
#[tactic(auto, using(crate::proofs::Pushing::pushed_then), unfolding(crate::specs::HeadFaults::unknown_nodes))]
pub fn push_unknown_nodes<'a, L: Lookup>(
    found: &mut Vec<Diagnostic>,
    known: &CrossReferences<'a, L>,
    message: &'a Message,
) -> Result<(), Memory>
    ensures { OnOk result (found.new.items ≡ found.old.items ++ unknown_nodes known.now message.now) }
{
    push_unknown_sender(found, known, &message.head)?;
    push_all_unknown_receivers(found, known, &message.head, message.signals.as_slice())
}
