//! Edits of the multiplexer entries and the value descriptions of signals.
ghost use Rattle.std.specs.Prelude.{◌≡◌, IfOk, Result};
ghost use Rattle.dbc_records.specs.Databases.{Database as PlainDatabase};
ghost use Rattle.dbc_edits.specs.declared.refusal.Refusal.{Refusal as PlainRefusal};
ghost use Rattle.dbc_edits.specs.Rows.{with_item, is_mux_of, is_values_of};
ghost use Rattle.dbc_edits.specs.Refusals.{IsAnswer, unless_refused};
ghost use Rattle.dbc_edits.specs.Edits.{for_signal, mux_set, values_set, mux_dropped, values_dropped};

use crate::key::OfSignal;
use crate::messages::has_number;
use crate::refusal::Refusal;
use crate::rows::{drop_all, has_any, set_row};
use crate::signals::has_signal;
use dbc_records::{Database, MuxRow, ValueRow};
use dbc_values::{Copied, Memory};

// Refuses the edit if no message of the CAN identifier has the signal.
#[tactic(auto, unfolding(crate::specs::Edits::refused_if))]
fn find_signal(database: &Database, number: u32, name: &[u8]) -> Result<(), Refusal>
    ensures { (change : Result PlainDatabase PlainRefusal) → for_signal number name.now database.now change ≡ unless_refused result
        change }
{
    if !has_number(database.messages.as_slice(), number) {
        return Err(Refusal::NoMessage);
    }
    if !has_signal(database.messages.as_slice(), number, name) {
        return Err(Refusal::NoSignal);
    }
    Ok(())
}

// The database with the multiplexer entry set.
fn with_mux(database: &Database, key: &OfSignal<'_>, row: &MuxRow) -> Result<Database, Memory>
    ensures { IfOk result (λ edited. edited ≡ record database.now {
      muxes = with_item (is_mux_of key.now.number key.now.name.now)
          row.now database.now.muxes;
    }) }
{
    let row = row.copy()?;
    let mut edited = database.copy()?;
    set_row(&mut edited.muxes, key, row)?;
    Ok(edited)
}

/// The database with the multiplexer entry set, if its message has its signal.
#[tactic(auto, unfolding(crate::specs::Edits::mux_set, crate::specs::Edits::refused_if))]
pub(crate) fn set_mux(database: &Database, row: &MuxRow) -> Result<Database, Refusal>
    ensures { IsAnswer (mux_set row.now database.now) result }
{
    let number = row.number;
    let name = row.signal.as_bytes();
    find_signal(database, number, name)?;
    let edited = with_mux(database, &OfSignal { number, name }, row)?;
    Ok(edited)
}

// The database with the `VAL_` entry set.
fn with_named(database: &Database, key: &OfSignal<'_>, row: &ValueRow) -> Result<Database, Memory>
    ensures { IfOk result (λ edited. edited ≡ record database.now {
      values = with_item (is_values_of key.now.number key.now.name.now)
          row.now database.now.values;
    }) }
{
    let row = row.copy()?;
    let mut edited = database.copy()?;
    set_row(&mut edited.values, key, row)?;
    Ok(edited)
}

/// The database with the `VAL_` entry set, if its message has its signal.
#[tactic(auto, unfolding(crate::specs::Edits::values_set, crate::specs::Edits::refused_if))]
pub(crate) fn set_values(database: &Database, row: &ValueRow) -> Result<Database, Refusal>
    ensures { IsAnswer (values_set row.now database.now) result }
{
    let number = row.number;
    let name = row.signal.as_bytes();
    find_signal(database, number, name)?;
    let edited = with_named(database, &OfSignal { number, name }, row)?;
    Ok(edited)
}

/// The database without the multiplexer entries of the signal.
#[tactic(auto, unfolding(crate::specs::Edits::mux_dropped, crate::specs::Edits::refused_if))]
pub(crate) fn drop_mux(database: &Database, number: u32, name: &[u8]) -> Result<Database, Refusal>
    ensures { IsAnswer (mux_dropped number name.now database.now) result }
{
    let key = OfSignal { number, name };
    if !has_any(database.muxes.as_slice(), &key) {
        return Err(Refusal::NoRow);
    }
    let mut edited = database.copy()?;
    drop_all(&mut edited.muxes, &key);
    Ok(edited)
}

/// The database without the `VAL_` entries of the signal.
#[tactic(auto, unfolding(crate::specs::Edits::values_dropped, crate::specs::Edits::refused_if))]
pub(crate) fn drop_values(
    database: &Database,
    number: u32,
    name: &[u8],
) -> Result<Database, Refusal>
    ensures { IsAnswer (values_dropped number name.now database.now) result }
{
    let key = OfSignal { number, name };
    if !has_any(database.values.as_slice(), &key) {
        return Err(Refusal::NoRow);
    }
    let mut edited = database.copy()?;
    drop_all(&mut edited.values, &key);
    Ok(edited)
}
