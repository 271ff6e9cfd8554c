//! Edits of messages.
ghost use Rattle.std.specs.Prelude.{◌≡◌, ◌<◌, ◌≤◌, [], IfOk, length, insert, remove};
ghost use Rattle.dbc_records.specs.Databases.{most_messages};
ghost use Rattle.dbc_edits.specs.Changes.{changed};
ghost use Rattle.dbc_edits.specs.Refusals.{IsAnswer};
ghost use Rattle.dbc_edits.specs.Edits.{has_number, cleared_of_number, with_message, message_added, message_removed};
ghost use Rattle.dbc_edits.specs.Edits.{message_changed, message_renumbered};

use crate::change::Change;
use crate::databases::{drop_rows, has_row, with_message};
use crate::key::OfNumber;
use crate::refusal::Refusal;
use crate::renumbering::{Renumbering, renumber_rows};
use dbc_records::{Database, Head, Message};
use dbc_values::{Copied, List, Memory};
use std::alloc::Global;

/// Whether a message has the CAN identifier.
pub(crate) fn has_number(messages: &[Message], number: u32) -> bool
    ensures { result ≡ has_number number messages.now }
{
    for message in messages {
        if message.head.number == number {
            return true;
        }
    }
    false
}

/// A message's CAN identifier.
pub(crate) fn number_of(message: &Message) -> u32
    ensures { result ≡ message.now.head.number }
{
    message.head.number
}

// The message of a first line, without signals.
#[tactic(auto, using(crate::proofs::Fitting::fits_none))]
fn bare(alloc: Global, head: Head) -> Message
    ensures { result ≡ record { head = head; signals = [] } }
{
    Message {
        head,
        signals: List::new(alloc),
    }
}

// The database with one more message, inserted at the index.
fn with_added(database: &Database, index: usize, message: Message) -> Result<Database, Memory>
    requires index { index ≤ length database.now.messages }
    requires space { length database.now.messages < most_messages }
    ensures { IfOk result (λ edited. edited ≡ record database.now { messages = insert database.now.messages index message }) }
{
    let mut edited = database.copy()?;
    edited.messages.insert(index, message)?;
    Ok(edited)
}

/// The database with a message without signals at the index.
#[tactic(auto, unfolding(crate::specs::Edits::message_added, crate::specs::Edits::refused_if))]
pub(crate) fn add_message(
    alloc: Global,
    database: &Database,
    index: usize,
    head: &Head,
) -> Result<Database, Refusal>
    ensures { IsAnswer (message_added index head.now database.now) result }
{
    let messages = database.messages.as_slice();
    if index > messages.len() {
        return Err(Refusal::BadPlace);
    }
    if messages.len() >= Database::MAX_MESSAGES {
        return Err(Refusal::MessagesFull);
    }
    let message = bare(alloc, head.copy()?);
    let edited = with_added(database, index, message)?;
    Ok(edited)
}

// Removes the message at the index, and the entries of this CAN identifier if no other has it.
fn remove_at(database: &mut Database, index: usize, number: u32)
    requires { index < length database.old.messages }
    ensures { database.new ≡ cleared_of_number number (record database.old { messages = remove database.old.messages index }) }
{
    database.messages.remove(index);
    if !has_number(database.messages.as_slice(), number) {
        drop_rows(database, &OfNumber { number });
    }
}

// The database without the message at the index, and without the entries of its CAN identifier if no other has it.
fn removed_at(database: &Database, index: usize, message: &Message) -> Result<Database, Memory>
    requires { index < length database.now.messages }
    ensures { IfOk result (λ edited. edited ≡ cleared_of_number message.now.head.number
        (record database.now { messages = remove database.now.messages index })) }
{
    let number = number_of(message);
    let mut edited = database.copy()?;
    remove_at(&mut edited, index, number);
    Ok(edited)
}

/// The database without the message at the index, and without the entries of its CAN identifier if no other has it.
#[tactic(auto, unfolding(crate::specs::Edits::message_removed, crate::specs::Edits::at_message))]
pub(crate) fn remove_message(database: &Database, index: usize) -> Result<Database, Refusal>
    ensures { IsAnswer (message_removed index database.now) result }
{
    let Some(message) = database.messages.as_slice().get(index) else {
        return Err(Refusal::NoMessage);
    };
    let edited = removed_at(database, index, message)?;
    Ok(edited)
}

// The first line with the change applied, except its CAN identifier.
fn changed_head(head: &Head, change: &Change) -> Result<Head, Memory>
    ensures { IfOk result (λ other. other ≡ changed change.now head.now) }
{
    let name = change.name.copy()?;
    let sender = change.sender.copy()?;
    Ok(Head {
        number: head.number,
        name,
        size: change.size,
        sender,
    })
}

// The message with another first line.
fn with_head(message: &Message, head: Head) -> Result<Message, Memory>
    ensures { IfOk result (λ other. other ≡ record message.now { head = head }) }
{
    let mut other = message.copy()?;
    other.head = head;
    Ok(other)
}

/// The database with another first line of the message at the index.
#[tactic(auto, unfolding(crate::specs::Edits::message_changed, crate::specs::Edits::at_message))]
pub(crate) fn change_message(
    database: &Database,
    index: usize,
    change: &Change,
) -> Result<Database, Refusal>
    ensures { IsAnswer (message_changed index change.now database.now) result }
{
    let Some(message) = database.messages.as_slice().get(index) else {
        return Err(Refusal::NoMessage);
    };
    let head = changed_head(&message.head, change)?;
    let message = with_head(message, head)?;
    let edited = with_message(database, index, message)?;
    Ok(edited)
}

// Whether a message other than the one at the index has the CAN identifier.
fn another_has_number(messages: &[Message], index: usize, number: u32) -> bool
    requires { index < length messages.now }
    ensures { result ≡ has_number number (remove messages.now index) }
{
    let (before, _) = messages.split_at(index);
    let (_, after) = messages.split_at(index + 1);
    has_number(before, number) || has_number(after, number)
}

// The message with another CAN identifier.
fn with_number(message: &Message, number: u32) -> Result<Message, Memory>
    ensures { IfOk result (λ other. other ≡ record message.now { head = record message.now.head { number = number } }) }
{
    let mut other = message.copy()?;
    other.head.number = number;
    Ok(other)
}

/// The database with another CAN identifier for the message at the index and for all entries of its CAN identifier.
#[tactic(auto, unfolding(crate::specs::Edits::message_renumbered, crate::specs::Edits::at_message, crate::specs::Edits::refused_if))]
pub(crate) fn renumber(database: &Database, index: usize, number: u32) -> Result<Database, Refusal>
    ensures { IsAnswer (message_renumbered index number database.now) result }
{
    let messages = database.messages.as_slice();
    let Some(message) = messages.get(index) else {
        return Err(Refusal::NoMessage);
    };
    if has_number(messages, number) || has_row(database, &OfNumber { number }) {
        return Err(Refusal::IdTaken);
    }
    let old = message.head.number;
    if another_has_number(messages, index, old) {
        return Err(Refusal::IdShared);
    }
    let message = with_number(message, number)?;
    let mut edited = with_message(database, index, message)?;
    renumber_rows(
        &mut edited,
        &Renumbering {
            from: old,
            to: number,
        },
    );
    Ok(edited)
}
