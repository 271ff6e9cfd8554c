//! The entries of a database.
ghost use Rattle.std.specs.Prelude.{◌≡◌, IfOk, OnOk, map};
ghost use Rattle.std.specs.List.{fold};
ghost use Rattle.dbc_records.specs.EntryKeys.{entry_key};
ghost use Rattle.dbc_records.specs.DatabaseEntries.{keys_by_kind};

use crate::attribute::{AttrDefault, AttrRow};
use crate::comment::Comment;
use crate::database::Database;
use crate::definition::AttrDef;
use crate::entry_key::{EntryKey, EntryKeyRef, TargetRef};
use crate::float_row::FloatRow;
use crate::mux_row::MuxRow;
use crate::table_row::TableRow;
use crate::value_row::ValueRow;
use dbc_values::{Checked, Copied, Memory};

/// The kinds of entries, in the order in which they are printed.
#[derive(Clone, Copy, Debug, PartialEq, Eq)]
pub enum EntryKind {
    /// Value tables: `VAL_TABLE_`.
    Table,
    /// Comments: `CM_`.
    Comment,
    /// Definitions of attributes: `BA_DEF_`.
    Definition,
    /// Defaults of attributes: `BA_DEF_DEF_`.
    Default,
    /// Values of attributes: `BA_`.
    Attribute,
    /// Value descriptions of signals: `VAL_`.
    Values,
    /// Float types of signals: `SIG_VALTYPE_`.
    Float,
    /// Extended multiplexing: `SG_MUL_VAL_`.
    Mux,
}

/// An entry of a database: a statement with a key.
pub trait DatabaseEntry: Checked {
    ghost use Rattle.dbc_records.specs.declared.entry_key.EntryKey.{EntryKey};

    // Its kind and its key.
    ghost key_of: { Self → EntryKey };

    /// Its key, borrowed.
    fn key(&self) -> EntryKeyRef<'_>
        ensures { entry_key result ≡ key_of self.now };

    /// A copy of its key.
    fn owned_key(&self) -> Result<EntryKey, Memory>
        ensures { IfOk result (λ key. key ≡ key_of self.now) };
}

impl DatabaseEntry for TableRow {
    ghost use Rattle.dbc_records.specs.EntryKeys.{key_of_table};

    ghost key_of = { key_of_table };

    fn key(&self) -> EntryKeyRef<'_> {
        EntryKeyRef::Table(self.name.as_bytes())
    }

    fn owned_key(&self) -> Result<EntryKey, Memory> {
        Ok(EntryKey::Table(self.name.copy()?))
    }
}

impl DatabaseEntry for Comment {
    ghost use Rattle.dbc_records.specs.EntryKeys.{key_of_comment};

    ghost key_of = { key_of_comment };

    fn key(&self) -> EntryKeyRef<'_> {
        EntryKeyRef::Comment(TargetRef::of(&self.target))
    }

    fn owned_key(&self) -> Result<EntryKey, Memory> {
        Ok(EntryKey::Comment(self.target.copy()?))
    }
}

impl DatabaseEntry for AttrDef {
    ghost use Rattle.dbc_records.specs.EntryKeys.{key_of_definition};

    ghost key_of = { key_of_definition };

    fn key(&self) -> EntryKeyRef<'_> {
        EntryKeyRef::Definition(self.object, self.name.as_bytes())
    }

    fn owned_key(&self) -> Result<EntryKey, Memory> {
        Ok(EntryKey::Definition(self.object, self.name.copy()?))
    }
}

impl DatabaseEntry for AttrDefault {
    ghost use Rattle.dbc_records.specs.EntryKeys.{key_of_default};

    ghost key_of = { key_of_default };

    fn key(&self) -> EntryKeyRef<'_> {
        EntryKeyRef::Default(self.name.as_bytes())
    }

    fn owned_key(&self) -> Result<EntryKey, Memory> {
        Ok(EntryKey::Default(self.name.copy()?))
    }
}

impl DatabaseEntry for AttrRow {
    ghost use Rattle.dbc_records.specs.EntryKeys.{key_of_attribute};

    ghost key_of = { key_of_attribute };

    fn key(&self) -> EntryKeyRef<'_> {
        EntryKeyRef::Attribute(self.name.as_bytes(), TargetRef::of(&self.target))
    }

    fn owned_key(&self) -> Result<EntryKey, Memory> {
        let name = self.name.copy()?;
        let target = self.target.copy()?;
        Ok(EntryKey::Attribute(name, target))
    }
}

impl DatabaseEntry for ValueRow {
    ghost use Rattle.dbc_records.specs.EntryKeys.{key_of_values};

    ghost key_of = { key_of_values };

    fn key(&self) -> EntryKeyRef<'_> {
        EntryKeyRef::Values(self.number, self.signal.as_bytes())
    }

    fn owned_key(&self) -> Result<EntryKey, Memory> {
        Ok(EntryKey::Values(self.number, self.signal.copy()?))
    }
}

impl DatabaseEntry for FloatRow {
    ghost use Rattle.dbc_records.specs.EntryKeys.{key_of_float};

    ghost key_of = { key_of_float };

    fn key(&self) -> EntryKeyRef<'_> {
        EntryKeyRef::Float(self.number, self.signal.as_bytes())
    }

    fn owned_key(&self) -> Result<EntryKey, Memory> {
        Ok(EntryKey::Float(self.number, self.signal.copy()?))
    }
}

impl DatabaseEntry for MuxRow {
    ghost use Rattle.dbc_records.specs.EntryKeys.{key_of_mux};

    ghost key_of = { key_of_mux };

    fn key(&self) -> EntryKeyRef<'_> {
        EntryKeyRef::Mux(self.number, self.signal.as_bytes())
    }

    fn owned_key(&self) -> Result<EntryKey, Memory> {
        Ok(EntryKey::Mux(self.number, self.signal.copy()?))
    }
}

/// What a visitor does with the entries of a database, kind by kind.
pub trait EntryVisitor<'a>: Drop {
    ghost use Rattle.std.specs.Prelude.{List};
    ghost use Rattle.dbc_records.specs.declared.entry_key.EntryKey.{EntryKey};
    ghost use Rattle.dbc_records.specs.declared.database_entry.EntryKind.{EntryKind};

    // The visitor once it has seen the entries of a kind, by their keys.
    ghost visited: { Self → EntryKind × List EntryKey → Self };

    /// Takes all entries of a kind.
    fn visit<E: DatabaseEntry>(&mut self, kind: EntryKind, entries: &'a [E]) -> Result<(), Memory>
        ensures { OnOk result (self.new ≡ visited self.old (kind, map E.key_of entries.now)) };
}

impl Database {
    /// Shows the visitor all entries, kind by kind in the order in which they are printed.
    pub fn visit_entries<'a, V: EntryVisitor<'a>>(&'a self, visitor: &mut V) -> Result<(), Memory>
        ensures { OnOk result (visitor.new ≡ fold V.visited visitor.old (keys_by_kind self.now)) }
    {
        visitor.visit(EntryKind::Table, self.tables.as_slice())?;
        visitor.visit(EntryKind::Comment, self.comments.as_slice())?;
        visitor.visit(EntryKind::Definition, self.definitions.as_slice())?;
        visitor.visit(EntryKind::Default, self.defaults.as_slice())?;
        visitor.visit(EntryKind::Attribute, self.attributes.as_slice())?;
        visitor.visit(EntryKind::Values, self.values.as_slice())?;
        visitor.visit(EntryKind::Float, self.floats.as_slice())?;
        visitor.visit(EntryKind::Mux, self.muxes.as_slice())
    }
}
