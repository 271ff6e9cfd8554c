//! Edits of the signals of a message.
ghost use Rattle.std.specs.Prelude.{◌≡◌, IfOk, IsTrue, map, true, false, ◌≤◌, ◌<◌, length, insert};
ghost use Rattle.dbc_records.specs.Records.{signals_fit, most_signals};
ghost use Rattle.dbc_edits.specs.Rows.{without};
ghost use Rattle.dbc_edits.specs.Refusals.{IsAnswer};
ghost use Rattle.dbc_edits.specs.Edits.{is_named, has_named, has_signal, with_message, cleared_of_signal, replaced_by};
ghost use Rattle.dbc_edits.specs.Edits.{signal_added, signal_removed, signal_changed};

use crate::databases::{drop_rows, with_message};
use crate::key::{OfName, OfSignal};
use crate::messages::number_of;
use crate::refusal::Refusal;
use crate::rows::{drop_all, has_any, index_of};
use dbc_records::{Database, Message, Signal};
use dbc_values::{Copied, List, Memory};

/// Whether a signal has the name.
pub(crate) fn has_named(signals: &[Signal], name: &[u8]) -> bool
    ensures { result ≡ has_named name.now signals.now }
{
    has_any(signals, &OfName { name })
}

/// Whether a message of the CAN identifier has a signal of the name.
pub(crate) fn has_signal(messages: &[Message], number: u32, name: &[u8]) -> bool
    ensures { result ≡ has_signal number name.now messages.now }
{
    for message in messages {
        if message.head.number == number && has_named(message.signals.as_slice(), name) {
            return true;
        }
    }
    false
}

/// The message with these signals.
pub(crate) fn with_signals(message: &Message, signals: List<Signal>) -> Result<Message, Memory>
    requires { IsTrue (signals_fit signals) }
    ensures { IfOk result (λ other. other ≡ record message.now { signals = signals }) }
{
    let head = message.head.copy()?;
    Ok(Message { head, signals })
}

// The message with one more signal, inserted at the index.
#[tactic(auto, using(crate::proofs::Fitting::fits_inserted))]
fn with_signal(message: &Message, at: usize, signal: &Signal) -> Result<Message, Memory>
    requires index { at ≤ length message.now.signals }
    requires space { length message.now.signals < most_signals }
    requires new { has_named signal.now.name message.now.signals ≡ false }
    ensures { IfOk result (λ other. other ≡ record message.now { signals = insert message.now.signals at signal.now }) }
{
    let signal = signal.copy()?;
    let mut signals = message.signals.copy()?;
    signals.insert(at, signal)?;
    with_signals(message, signals)
}

/// The database with one more signal of the message at the first index.
#[tactic(auto, unfolding(crate::specs::Edits::signal_added, crate::specs::Edits::at_message, crate::specs::Edits::refused_if))]
pub(crate) fn add_signal(
    database: &Database,
    index: usize,
    at: usize,
    signal: &Signal,
) -> Result<Database, Refusal>
    ensures { IsAnswer (signal_added index at signal.now database.now) result }
{
    let Some(message) = database.messages.as_slice().get(index) else {
        return Err(Refusal::NoMessage);
    };
    let signals = message.signals.as_slice();
    if at > signals.len() {
        return Err(Refusal::BadPlace);
    }
    if has_named(signals, signal.name.as_bytes()) {
        return Err(Refusal::SignalExists);
    }
    if signals.len() >= Message::MAX_SIGNALS {
        return Err(Refusal::SignalsFull);
    }
    let message = with_signal(message, at, signal)?;
    let edited = with_message(database, index, message)?;
    Ok(edited)
}

// The message without the signals of the name.
#[tactic(auto, using(crate::proofs::Fitting::fits_without))]
fn without_signal(message: &Message, name: &[u8]) -> Result<Message, Memory>
    ensures { IfOk result (λ other. other ≡ record message.now { signals = without (is_named name.now) message.now.signals }) }
{
    let mut signals = message.signals.copy()?;
    drop_all(&mut signals, &OfName { name });
    with_signals(message, signals)
}

// Removes the entries of the signal if no message of the CAN identifier has it.
fn clear_signal(database: &mut Database, number: u32, name: &[u8])
    ensures { database.new ≡ cleared_of_signal number name.now database.old }
{
    if !has_signal(database.messages.as_slice(), number, name) {
        drop_rows(database, &OfSignal { number, name });
    }
}

// The database with this message, put at the index, without the signal of the name, and without its entries if no other message of
// the CAN identifier has such a signal.
fn removed_at(
    database: &Database,
    index: usize,
    message: &Message,
    name: &[u8],
) -> Result<Database, Memory>
    requires { index < length database.now.messages }
    ensures { IfOk result (λ edited. edited ≡ cleared_of_signal message.now.head.number name.now
        (with_message index (record message.now { signals = without (is_named name.now) message.now.signals }) database.now)) }
{
    let number = number_of(message);
    let other = without_signal(message, name)?;
    let mut edited = with_message(database, index, other)?;
    clear_signal(&mut edited, number, name);
    Ok(edited)
}

/// The database without the signal of the name in the message at the index, and without its entries if no other message of the CAN
/// identifier has such a signal.
#[tactic(auto, unfolding(crate::specs::Edits::signal_removed, crate::specs::Edits::at_message, crate::specs::Edits::refused_if))]
pub(crate) fn remove_signal(
    database: &Database,
    index: usize,
    name: &[u8],
) -> Result<Database, Refusal>
    ensures { IsAnswer (signal_removed index name.now database.now) result }
{
    let Some(message) = database.messages.as_slice().get(index) else {
        return Err(Refusal::NoMessage);
    };
    if !has_named(message.signals.as_slice(), name) {
        return Err(Refusal::NoSignal);
    }
    let edited = removed_at(database, index, message, name)?;
    Ok(edited)
}

// The message with this signal instead of that of its name.
#[tactic(auto, using(crate::proofs::Indexes::found, crate::proofs::Fitting::fits_set, crate::proofs::Fitting::replaced))]
fn with_replaced(message: &Message, signal: &Signal) -> Result<Message, Memory>
    requires { has_named signal.now.name message.now.signals ≡ true }
    ensures { IfOk result (λ other. other ≡ record message.now { signals = map (replaced_by signal.now) message.now.signals }) }
{
    let key = OfName {
        name: signal.name.as_bytes(),
    };
    let other = signal.copy()?;
    let mut signals = message.signals.copy()?;
    let at = index_of(signals.as_slice(), &key);
    signals.set(at, other);
    with_signals(message, signals)
}

/// The database with this signal in place of the one of its name in the message at the index.
#[tactic(auto, unfolding(crate::specs::Edits::signal_changed, crate::specs::Edits::at_message, crate::specs::Edits::refused_if))]
pub(crate) fn change_signal(
    database: &Database,
    index: usize,
    signal: &Signal,
) -> Result<Database, Refusal>
    ensures { IsAnswer (signal_changed index signal.now database.now) result }
{
    let Some(message) = database.messages.as_slice().get(index) else {
        return Err(Refusal::NoMessage);
    };
    if !has_named(message.signals.as_slice(), signal.name.as_bytes()) {
        return Err(Refusal::NoSignal);
    }
    let message = with_replaced(message, signal)?;
    let edited = with_message(database, index, message)?;
    Ok(edited)
}
