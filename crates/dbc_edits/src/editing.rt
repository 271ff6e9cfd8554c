//! What an edit does to a database.
ghost use Rattle.dbc_edits.specs.Refusals.{IsAnswer};
ghost use Rattle.dbc_edits.specs.Edits.{edited};

use crate::attributes::{drop_attribute, set_attribute};
use crate::edit::Edit;
use crate::messages::{add_message, change_message, remove_message, renumber};
use crate::refusal::Refusal;
use crate::renaming::rename_signal;
use crate::signal_rows::{drop_mux, drop_values, set_mux, set_values};
use crate::signals::{add_signal, change_signal, remove_signal};
use crate::tables::{drop_table, set_table};
use dbc_records::Database;
use std::alloc::Global;

/// The changed database, or why the edit is refused.
///
/// It copies the database, in time and memory linear in it, and leaves the given database as it is. Running out of memory is
/// reported only if nothing else refuses the edit.
pub fn edited(alloc: Global, database: &Database, edit: &Edit) -> Result<Database, Refusal>
    ensures { IsAnswer (edited database.now edit.now) result }
{
    match edit {
        Edit::AddMessage(index, head) => add_message(alloc, database, *index, head),
        Edit::RemoveMessage(index) => remove_message(database, *index),
        Edit::ChangeMessage(index, change) => change_message(database, *index, change),
        Edit::Renumber(index, number) => renumber(database, *index, *number),
        Edit::AddSignal(index, at, signal) => add_signal(database, *index, *at, signal),
        Edit::RemoveSignal(index, name) => remove_signal(database, *index, name.as_bytes()),
        Edit::ChangeSignal(index, signal) => change_signal(database, *index, signal),
        Edit::RenameSignal(index, old, new) => rename_signal(database, *index, old, new),
        Edit::SetMux(row) => set_mux(database, row),
        Edit::SetValues(row) => set_values(database, row),
        Edit::DropMux(number, name) => drop_mux(database, *number, name.as_bytes()),
        Edit::DropValues(number, name) => drop_values(database, *number, name.as_bytes()),
        Edit::DropTable(name) => drop_table(database, name.as_bytes()),
        Edit::SetTable(row) => set_table(database, row),
        Edit::SetAttribute(name, number, value) => { set_attribute(database, name, *number, value) }
        Edit::DropAttribute(name, number) => { drop_attribute(database, name.as_bytes(), *number) }
    }
}
