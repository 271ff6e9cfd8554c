//! The entries of one message.
ghost use Rattle.std.specs.Prelude.{◌≡◌};
ghost use Rattle.std.specs.Option.{option_map};
ghost use Rattle.can_entries.specs.Rows.{rows_of, first_values, first_float, first_mux};

use crate::lookup::Lookup;
use dbc_records::{FloatRow, MuxRow, ValueRow};
use dbc_values::Name;
use std::marker::Model;

/// The entries of one message ID, by a signal's name: the first of each kind.
#[derive(Drop)]
pub struct MessageRows<'a, L: Lookup> {
    lookup: &'a L,
    number: u32,
}

impl<'a, L: Lookup> Model for MessageRows<'a, L> {
    ghost use Rattle.can_entries.specs.Rows.{SignalRows, rows_of};

    ghost Value = { SignalRows };

    ghost view = { λ rows. rows_of rows.number (L.whole rows.lookup.now) };
}

impl<'a, L: Lookup> MessageRows<'a, L> {
    /// The entries of a CAN identifier.
    pub fn of(lookup: &'a L, number: u32) -> MessageRows<'a, L>
        ensures { result ≡ rows_of number (L.whole lookup.now) }
    {
        MessageRows { lookup, number }
    }

    /// The value descriptions of a signal.
    pub fn values(&self, signal: &Name) -> Option<&ValueRow>
        ensures { option_map (λ row. row.now) result ≡ first_values signal.now self.now }
    {
        self.lookup.values(self.number, signal)
    }

    /// The float type of a signal.
    pub fn float(&self, signal: &Name) -> Option<&FloatRow>
        ensures { option_map (λ row. row.now) result ≡ first_float signal.now self.now }
    {
        self.lookup.float(self.number, signal)
    }

    /// The multiplexor (switch) of a signal.
    pub fn mux(&self, signal: &Name) -> Option<&MuxRow>
        ensures { option_map (λ row. row.now) result ≡ first_mux signal.now self.now }
    {
        self.lookup.mux(self.number, signal)
    }
}
