//! The lines of messages and their signals.
ghost use Rattle.std.specs.Prelude.{◌≡◌, ◌++◌, OnOk, length, take};
ghost use Rattle.std.specs.List.{flat_map};
ghost use Rattle.can_json_findings.specs.Locations.{message_location, sender_location, signal_location, receiver_location};
ghost use Rattle.can_json_findings.specs.Locations.{location_line, head_lines, receiver_lines, signal_lines, signals_lines};
ghost use Rattle.can_json_findings.specs.Locations.{message_lines};

use crate::location::push_part;
use can_diagnostics::Subject;
use can_findings::{after_first, first_start, parted};
use dbc_ranges::Part;
use dbc_reader::Start;
use dbc_records::{Head, Message, Signal};
use dbc_values::{Copied, Memory, Name};

fn push_message(lines: &mut Vec<u8>, text: &[u8], head: &Head, start: Start) -> Result<(), Memory>
    ensures { OnOk result (lines.new.items ≡ lines.old.items ++ location_line text.now (message_location head.now start)) }
{
    let subject = Subject::Message(head.number, head.name.copy()?);
    push_part(lines, text, &subject, start, Part::Key(3))
}

fn push_sender(lines: &mut Vec<u8>, text: &[u8], head: &Head, start: Start) -> Result<(), Memory>
    ensures { OnOk result (lines.new.items ≡ lines.old.items ++ location_line text.now (sender_location head.now start)) }
{
    let name = head.name.copy()?;
    let subject = Subject::Sender(head.number, name, head.sender.copy()?);
    push_part(lines, text, &subject, start, Part::Sender)
}

#[tactic(auto, using(crate::proofs::Pushed::pushed_then), unfolding(crate::specs::Locations::head_lines))]
fn push_head(lines: &mut Vec<u8>, text: &[u8], head: &Head, start: Start) -> Result<(), Memory>
    ensures { OnOk result (lines.new.items ≡ lines.old.items ++ head_lines text.now head.now start) }
{
    push_message(lines, text, head, start)?;
    push_sender(lines, text, head, start)?;
    Ok(())
}

// A signal of a message, and where it begins.
#[derive(Clone, Copy)]
struct SignalAt<'a> {
    head: &'a Head,
    signal: &'a Signal,
    start: Start,
}

fn push_signal_name(lines: &mut Vec<u8>, text: &[u8], at: SignalAt<'_>) -> Result<(), Memory>
    ensures { OnOk result (lines.new.items ≡ lines.old.items
        ++ location_line text.now (signal_location at.entry.head.now at.entry.signal.now at.entry.start)) }
{
    let (head, signal): (&Head, &Signal) = (at.head, at.signal);
    let message = head.name.copy()?;
    let subject = Subject::Signal(head.number, message, signal.name.copy()?);
    push_part(lines, text, &subject, at.start, Part::Key(2))
}

fn push_receiver(
    lines: &mut Vec<u8>,
    text: &[u8],
    at: SignalAt<'_>,
    node: &Name,
) -> Result<(), Memory>
    ensures { OnOk result (lines.new.items ≡ lines.old.items
        ++ location_line text.now (receiver_location at.entry.head.now at.entry.signal.now at.entry.start node.now)) }
{
    let (head, signal): (&Head, &Signal) = (at.head, at.signal);
    let message = head.name.copy()?;
    let name = signal.name.copy()?;
    let subject = Subject::Receiver(head.number, message, name, node.copy()?);
    let part = Part::Receiver(node.as_bytes());
    push_part(lines, text, &subject, at.start, part)
}

fn push_receivers(
    lines: &mut Vec<u8>,
    text: &[u8],
    at: SignalAt<'_>,
    nodes: &[Name],
) -> Result<(), Memory>
    ensures { OnOk result (lines.new.items ≡ lines.old.items
        ++ flat_map (λ node. location_line text.now (receiver_location at.entry.head.now at.entry.signal.now at.entry.start node))
        nodes.now) }
{
    for node in nodes {
        push_receiver(lines, text, at, node)?;
    }
    Ok(())
}

#[tactic(auto, using(crate::proofs::Pushed::pushed_then), unfolding(crate::specs::Locations::signal_lines))]
fn push_signal(lines: &mut Vec<u8>, text: &[u8], at: SignalAt<'_>) -> Result<(), Memory>
    ensures { OnOk result (lines.new.items ≡ lines.old.items
        ++ signal_lines text.now at.entry.head.now at.entry.signal.now at.entry.start) }
{
    push_signal_name(lines, text, at)?;
    let signal: &Signal = at.signal;
    push_receivers(lines, text, at, signal.receivers.as_slice())?;
    Ok(())
}

// The lines of the signals of a message, which begin there.
#[tactic(auto, using(crate::proofs::Pushed::step))]
fn push_signals(
    lines: &mut Vec<u8>,
    text: &[u8],
    message: &Message,
    starts: &[Start],
) -> Result<(), Memory>
    ensures { OnOk result (lines.new.items ≡ lines.old.items
        ++ signals_lines text.now message.now.head message.now.signals starts.now) }
{
    let head = &message.head;
    let (mut left, mut further) = (message.signals.as_slice(), starts);
    'signals: while let [signal, others @ ..] = left {
        let start = first_start(further);
        let at = SignalAt {
            head,
            signal,
            start,
        };
        push_signal(lines, text, at)?;
        (left, further) = (others, after_first(further));
    }
    Ok(())
}

// The lines of a message that begins there, and of its signals, which begin there.
#[tactic(auto, using(crate::proofs::Pushed::pushed_then))]
fn push_whole_message(
    lines: &mut Vec<u8>,
    text: &[u8],
    message: &Message,
    start: Start,
    signals: &[Start],
) -> Result<(), Memory>
    ensures { OnOk result (lines.new.items ≡ lines.old.items ++ (head_lines text.now message.now.head start
        ++ signals_lines text.now message.now.head message.now.signals signals.now)) }
{
    push_head(lines, text, &message.head, start)?;
    push_signals(lines, text, message, signals)?;
    Ok(())
}

/// Appends the lines of messages, which begin there, and of their signals to the lines.
#[tactic(auto, using(crate::proofs::Pushed::step))]
pub(crate) fn push_messages(
    lines: &mut Vec<u8>,
    text: &[u8],
    messages: &[Message],
    heads: &[Start],
    signals: &[Start],
) -> Result<(), Memory>
    ensures { OnOk result (lines.new.items ≡ lines.old.items ++ message_lines text.now messages.now heads.now signals.now) }
{
    let (mut left, mut further, mut rest) = (messages, heads, signals);
    'messages: while let [message, others @ ..] = left {
        let (own, after) = parted(rest, message.signals.len());
        push_whole_message(lines, text, message, first_start(further), own)?;
        (left, further, rest) = (others, after_first(further), after);
    }
    Ok(())
}
