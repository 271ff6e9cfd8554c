//! Databases with an index of their entries.
ghost use Rattle.std.specs.Prelude.{◌≡◌, IfOk};

use crate::format::FRAME_FORMAT;
use crate::format_index::FormatIndex;
use crate::index::Index;
use crate::lookup::Lookup;
use crate::row::first_attributed;
use dbc_records::{AttrDef, AttrDefault, AttrRow, Database, FloatRow, MuxRow, ValueRow};
use dbc_values::{Memory, Name};
use std::alloc::Global;
use std::marker::Model;

/// A database with an index of its entries, which finds the entries of a key in logarithmic time.
#[derive(Drop)]
pub struct Indexed<'a> {
    database: &'a Database,
    values: Index<'a, ValueRow>,
    floats: Index<'a, FloatRow>,
    muxes: Index<'a, MuxRow>,
    formats: FormatIndex<'a>,
    format_default: Option<&'a AttrDefault>,
    format_definition: Option<&'a AttrDef>,
}

impl<'a> Model for Indexed<'a> {
    ghost use Rattle.dbc_records.specs.Databases.{Database as Whole};
    ghost use Rattle.can_entries.specs.Indexes.{AreOf};

    ghost Value = { Whole };

    ghost view = { λ indexed. indexed.database.now };

    ghost invariant = { λ indexed. AreOf indexed.database.now indexed.values indexed.floats indexed.muxes indexed.formats
        indexed.format_default indexed.format_definition };
}

impl<'a> Indexed<'a> {
    /// The database with an index. It allocates in proportion to the entries.
    #[tactic(auto, unfolding(crate::specs::Groups::format_default, crate::specs::Groups::format_definition))]
    pub fn of(alloc: Global, database: &'a Database) -> Result<Indexed<'a>, Memory>
        ensures { IfOk result (λ indexed. indexed ≡ database.now) }
    {
        let values = Index::of(alloc, database.values.as_slice())?;
        let floats = Index::of(alloc, database.floats.as_slice())?;
        let muxes = Index::of(alloc, database.muxes.as_slice())?;
        let formats = FormatIndex::of(alloc, database.attributes.as_slice())?;
        Ok(Indexed {
            database,
            values,
            floats,
            muxes,
            formats,
            format_default: first_attributed(database.defaults.as_slice(), FRAME_FORMAT),
            format_definition: first_attributed(database.definitions.as_slice(), FRAME_FORMAT),
        })
    }
}

impl<'a> Lookup for Indexed<'a> {
    ghost whole = { λ indexed. indexed };

    fn database(&self) -> &Database {
        self.database
    }

    #[tactic(auto, unfolding(crate::specs::Rows::rows_of))]
    fn values(&self, number: u32, signal: &Name) -> Option<&ValueRow> {
        self.values.first(number, signal.as_bytes())
    }

    #[tactic(auto, unfolding(crate::specs::Rows::rows_of))]
    fn float(&self, number: u32, signal: &Name) -> Option<&FloatRow> {
        self.floats.first(number, signal.as_bytes())
    }

    #[tactic(auto, unfolding(crate::specs::Rows::rows_of))]
    fn mux(&self, number: u32, signal: &Name) -> Option<&MuxRow> {
        self.muxes.first(number, signal.as_bytes())
    }

    #[tactic(auto, unfolding(crate::specs::Groups::format_row))]
    fn format_row(&self, number: u32) -> Option<&AttrRow> {
        self.formats.first(number)
    }

    fn format_default(&self) -> Option<&AttrDefault> {
        self.format_default
    }

    fn format_definition(&self) -> Option<&AttrDef> {
        self.format_definition
    }
}
