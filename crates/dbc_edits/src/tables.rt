//! Edits of value tables.
ghost use Rattle.dbc_edits.specs.Refusals.{IsAnswer};
ghost use Rattle.dbc_edits.specs.Edits.{table_set, table_dropped};

use crate::key::OfTable;
use crate::refusal::Refusal;
use crate::rows::{drop_all, has_any, set_row};
use dbc_records::{Database, TableRow};
use dbc_values::Copied;

/// The database with the value table set.
#[tactic(auto, unfolding(crate::specs::Edits::table_set))]
pub(crate) fn set_table(database: &Database, row: &TableRow) -> Result<Database, Refusal>
    ensures { IsAnswer (table_set row.now database.now) result }
{
    let key = OfTable {
        name: row.name.as_bytes(),
    };
    let row = row.copy()?;
    let mut edited = database.copy()?;
    set_row(&mut edited.tables, &key, row)?;
    Ok(edited)
}

/// The database without the value tables of the name.
#[tactic(auto, unfolding(crate::specs::Edits::table_dropped, crate::specs::Edits::refused_if))]
pub(crate) fn drop_table(database: &Database, name: &[u8]) -> Result<Database, Refusal>
    ensures { IsAnswer (table_dropped name.now database.now) result }
{
    let key = OfTable { name };
    if !has_any(database.tables.as_slice(), &key) {
        return Err(Refusal::NoRow);
    }
    let mut edited = database.copy()?;
    drop_all(&mut edited.tables, &key);
    Ok(edited)
}
