//! Entries that plans of messages of one CAN identifier share.
ghost use Rattle.std.specs.Prelude.{◌≡◌};

use crate::named::Named;
use can_entries::Keyed;
use dbc_records::ValueRow;
use dbc_values::Checked;
use std::rc::Rc;

/// A message ID whose plans share value descriptions.
#[derive(Drop)]
pub(crate) struct SharedNumber {
    /// The message ID.
    pub number: u32,
}

impl Checked for SharedNumber {
    ghost use Rattle.std.specs.Prelude.{⊤};

    ghost IsValid = { λ shared. ⊤ };
}

impl Keyed for SharedNumber {
    ghost use Rattle.std.specs.Prelude.{[]};

    ghost number_of = { λ shared. shared.number };

    ghost signal_of = { λ shared. [] };

    fn number(&self) -> u32 {
        self.number
    }

    fn signal(&self) -> &[u8] {
        b""
    }
}

/// A `VAL_` entry, and its value descriptions as plans share them.
#[derive(Drop)]
pub(crate) struct NamedRow<'a> {
    /// The entry.
    pub row: &'a ValueRow,
    /// Its value descriptions.
    pub named: Rc<Named>,
    ghost same: { named.value ≡ row.now.entries },
}

impl<'a> Checked for NamedRow<'a> {
    ghost use Rattle.std.specs.Prelude.{⊤};

    ghost IsValid = { λ named. ⊤ };
}

impl<'a> Keyed for NamedRow<'a> {
    ghost number_of = { λ named. named.row.now.number };

    ghost signal_of = { λ named. named.row.now.signal };

    fn number(&self) -> u32 {
        let row = self.row;
        row.number
    }

    fn signal(&self) -> &[u8] {
        let row = self.row;
        row.signal.as_bytes()
    }
}
