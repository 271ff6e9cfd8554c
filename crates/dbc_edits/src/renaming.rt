//! Renaming a signal.
ghost use Rattle.std.specs.Prelude.{◌≡◌, ◌<◌, false, IfOk, IsOk, Ok, length, map, remove};
ghost use Rattle.dbc_edits.specs.Refusals.{IsAnswer};
ghost use Rattle.dbc_edits.specs.Rows.{has_row_naming, rows_renamed};
ghost use Rattle.dbc_edits.specs.Edits.{has_named, has_signal, with_message, with_name, signal_renamed};

use crate::databases::{has_row, with_message};
use crate::key::{OfSignal, OfSwitch};
use crate::refusal::Refusal;
use crate::renamed_rows::{Renaming, rename_all, rename_rows};
use crate::rows::has_any;
use crate::signals::{has_named, has_signal, with_signals};
use dbc_records::{Database, Message};
use dbc_values::{Copied, Memory, Name};

// Whether an entry of the CAN identifier names the signal, as what it is about or as its multiplexor (switch).
#[tactic(auto, unfolding(crate::specs::Rows::has_row_naming))]
fn has_row_naming(database: &Database, number: u32, name: &[u8]) -> bool
    ensures { result ≡ has_row_naming number name.now database.now }
{
    has_row(database, &OfSignal { number, name })
        || has_any(database.muxes.as_slice(), &OfSwitch { number, name })
}

// Whether a message of the CAN identifier other than the one at the index has a signal of the name.
fn another_has_signal(messages: &[Message], index: usize, number: u32, name: &[u8]) -> bool
    requires { index < length messages.now }
    ensures { result ≡ has_signal number name.now (remove messages.now index) }
{
    let (before, _) = messages.split_at(index);
    let (_, after) = messages.split_at(index + 1);
    has_signal(before, number, name) || has_signal(after, number, name)
}

// The message with the new name of the signal of the old name.
#[tactic(auto, using(crate::proofs::Fitting::fits_renamed))]
fn with_renamed(message: &Message, renaming: &Renaming<'_>) -> Result<Message, Memory>
    requires { has_named renaming.now.new message.now.signals ≡ false }
    ensures { IfOk result (λ other. other ≡ record message.now {
      signals = map (with_name renaming.now.old renaming.now.new)
          message.now.signals;
    }) }
{
    let mut signals = message.signals.copy()?;
    rename_all(&mut signals, renaming)?;
    with_signals(message, signals)
}

// The database with this message at the index, and with all entries of its CAN identifier renamed.
fn renamed_at(
    database: &Database,
    index: usize,
    message: &Message,
    renaming: &Renaming<'_>,
) -> Result<Database, Memory>
    requires index { index < length database.now.messages }
    requires free { has_named renaming.now.new message.now.signals ≡ false }
    ensures { IfOk result (λ edited. edited ≡ rows_renamed renaming.now
        (with_message index (record message.now {
          signals = map (with_name renaming.now.old renaming.now.new)
              message.now.signals;
        }) database.now)) }
{
    let message = with_renamed(message, renaming)?;
    let mut edited = with_message(database, index, message)?;
    rename_rows(&mut edited, renaming)?;
    Ok(edited)
}

/// The database with the new name of the signal of the old name in the message at the index, and of all entries that name it, or
/// why that is refused.
#[tactic(auto, unfolding(crate::specs::Edits::signal_renamed, crate::specs::Edits::at_message, crate::specs::Edits::refused_if))]
pub(crate) fn rename_signal(
    database: &Database,
    index: usize,
    old: &Name,
    new: &Name,
) -> Result<Database, Refusal>
    ensures { IsAnswer (signal_renamed index old.now new.now database.now) result }
{
    let messages = database.messages.as_slice();
    let Some(message) = messages.get(index) else {
        return Err(Refusal::NoMessage);
    };
    let number = message.head.number;
    if !has_named(message.signals.as_slice(), old.as_bytes()) {
        return Err(Refusal::NoSignal);
    }
    if has_named(message.signals.as_slice(), new.as_bytes()) {
        return Err(Refusal::SignalExists);
    }
    if has_row_naming(database, number, new.as_bytes()) {
        return Err(Refusal::NameTaken);
    }
    if another_has_signal(messages, index, number, old.as_bytes())
        || another_has_signal(messages, index, number, new.as_bytes())
    {
        return Err(Refusal::NameShared);
    }
    let renaming = Renaming { number, old, new };
    let edited = renamed_at(database, index, message, &renaming)?;
    Ok(edited)
}

/// The database with the new name of the signal of the old name in the message at the index, and in all entries of the
/// message's CAN identifier that name it, also as their multiplexor: what [`Edit::RenameSignal`](crate::Edit::RenameSignal)
/// gives if it isn't refused.
pub fn renamed(
    database: &Database,
    index: usize,
    old: &Name,
    new: &Name,
) -> Result<Database, Memory>
    requires { IsOk (signal_renamed index old.now new.now database.now) }
    ensures { IfOk result (λ renamed. signal_renamed index old.now new.now database.now ≡ Ok renamed) }
{
    match rename_signal(database, index, old, new) {
        Ok(renamed) => Ok(renamed),
        Err(_) => Err(Memory),
    }
}
