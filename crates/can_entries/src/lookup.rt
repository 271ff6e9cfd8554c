//! Databases whose entries are found by their keys.
ghost use Rattle.std.specs.Prelude.{◌≡◌};
ghost use Rattle.std.specs.Option.{option_map};
ghost use Rattle.dbc_records.specs.Databases.{Database};
ghost use Rattle.can_entries.specs.Rows.{rows_of, first_values, first_float, first_mux};
ghost use Rattle.can_entries.specs.Groups.{format_row, format_default, format_definition};

use crate::format::{FRAME_FORMAT, first_format_row};
use crate::row::{first_attributed, first_row};
use dbc_records::{AttrDef, AttrDefault, AttrRow, Database, FloatRow, MuxRow, ValueRow};
use dbc_values::Name;

/// A database whose entries are found by their keys. An entry counts whether or not its message or its signal is present; of
/// several with the same key the first counts.
pub trait Lookup {
    ghost whole: { Self → Database };

    /// The database.
    fn database(&self) -> &Database
        ensures { result.now ≡ whole self.now };

    /// The value descriptions of a signal.
    fn values(&self, number: u32, signal: &Name) -> Option<&ValueRow>
        ensures { option_map (λ row. row.now) result ≡ first_values signal.now (rows_of number (whole self.now)) };

    /// The float type of a signal.
    fn float(&self, number: u32, signal: &Name) -> Option<&FloatRow>
        ensures { option_map (λ row. row.now) result ≡ first_float signal.now (rows_of number (whole self.now)) };

    /// The multiplexor (switch) of a signal and its raw values, as extended multiplexing gives them.
    fn mux(&self, number: u32, signal: &Name) -> Option<&MuxRow>
        ensures { option_map (λ row. row.now) result ≡ first_mux signal.now (rows_of number (whole self.now)) };

    /// The frame format of a message, as an attribute entry gives it.
    fn format_row(&self, number: u32) -> Option<&AttrRow>
        ensures { option_map (λ row. row.now) result ≡ format_row number (whole self.now) };

    /// The frame format of messages without an entry of their own.
    fn format_default(&self) -> Option<&AttrDefault>
        ensures { option_map (λ row. row.now) result ≡ format_default (whole self.now) };

    /// The definition of frame formats.
    fn format_definition(&self) -> Option<&AttrDef>
        ensures { option_map (λ definition. definition.now) result ≡ format_definition (whole self.now) };
}

/// Searches the entries, and allocates nothing.
impl Lookup for Database {
    ghost whole = { λ database. database };

    fn database(&self) -> &Database {
        self
    }

    #[tactic(auto, unfolding(crate::specs::Rows::rows_of))]
    fn values(&self, number: u32, signal: &Name) -> Option<&ValueRow> {
        first_row(self.values.as_slice(), number, signal.as_bytes())
    }

    #[tactic(auto, unfolding(crate::specs::Rows::rows_of))]
    fn float(&self, number: u32, signal: &Name) -> Option<&FloatRow> {
        first_row(self.floats.as_slice(), number, signal.as_bytes())
    }

    #[tactic(auto, unfolding(crate::specs::Rows::rows_of))]
    fn mux(&self, number: u32, signal: &Name) -> Option<&MuxRow> {
        first_row(self.muxes.as_slice(), number, signal.as_bytes())
    }

    #[tactic(auto, unfolding(crate::specs::Groups::format_row))]
    fn format_row(&self, number: u32) -> Option<&AttrRow> {
        first_format_row(self.attributes.as_slice(), number)
    }

    #[tactic(auto, unfolding(crate::specs::Groups::format_default))]
    fn format_default(&self) -> Option<&AttrDefault> {
        first_attributed(self.defaults.as_slice(), FRAME_FORMAT)
    }

    #[tactic(auto, unfolding(crate::specs::Groups::format_definition))]
    fn format_definition(&self) -> Option<&AttrDef> {
        first_attributed(self.definitions.as_slice(), FRAME_FORMAT)
    }
}
