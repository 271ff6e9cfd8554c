//! Named value tables.
ghost use Rattle.std.specs.Prelude.{◌≡◌, Some};

use crate::entry::Entry;
use dbc_values::{Checked, Copied, List, Memory, Name};
use std::marker::Model;

/// A value table: `VAL_TABLE_ name entries ;`.
#[derive(Drop)]
pub struct TableRow {
    /// The table's name.
    pub name: Name,
    /// Its values, in the order of the text.
    pub entries: List<Entry>,
}

impl Model for TableRow {
    ghost use Rattle.dbc_records.specs.Records as records;

    ghost Value = { records.TableRow };

    ghost view = { λ a. record { name = a.name; entries = a.entries } };

    ghost invariant = { λ a. records.IsTableRow (record { name = a.name; entries = a.entries }) };
}

impl TableRow {
    /// The table; never `None`.
    pub fn new(name: Name, entries: List<Entry>) -> Option<TableRow>
        ensures { result ≡ Some (record { name = name; entries = entries }) }
    {
        Some(TableRow { name, entries })
    }
}

impl Checked for TableRow {
    ghost use Rattle.dbc_records.specs.Records.{IsTableRow};

    ghost IsValid = { IsTableRow };
}

impl Copied for TableRow {
    fn copy(&self) -> Result<TableRow, Memory> {
        let name = self.name.copy()?;
        let entries = self.entries.copy()?;
        Ok(TableRow { name, entries })
    }
}
