//! The value descriptions of a signal.
ghost use Rattle.std.specs.Prelude.{◌≡◌, Some};

use crate::entries::Entries;
use dbc_values::{Checked, Copied, Memory, Name};
use std::marker::Model;

/// The value descriptions of a signal: `VAL_ number signal entries ;`.
#[derive(Drop)]
pub struct ValueRow {
    /// The CAN identifier of the message.
    pub number: u32,
    /// The name of the signal.
    pub signal: Name,
    /// The value descriptions, in the order of the text.
    pub entries: Entries,
}

impl Model for ValueRow {
    ghost use Rattle.dbc_records.specs.Records as records;

    ghost Value = { records.ValueRow };

    ghost view = { λ a. record { number = a.number; signal = a.signal; entries = a.entries } };

    ghost invariant = { λ a. records.IsValueRow (record { number = a.number; signal = a.signal; entries = a.entries }) };
}

impl ValueRow {
    /// The entry; never `None`.
    pub fn new(number: u32, signal: Name, entries: Entries) -> Option<ValueRow>
        ensures { result ≡ Some (record { number = number; signal = signal; entries = entries }) }
    {
        Some(ValueRow {
            number,
            signal,
            entries,
        })
    }
}

impl Checked for ValueRow {
    ghost use Rattle.dbc_records.specs.Records.{IsValueRow};

    ghost IsValid = { IsValueRow };
}

impl Copied for ValueRow {
    fn copy(&self) -> Result<ValueRow, Memory> {
        let signal = self.signal.copy()?;
        let entries = self.entries.copy()?;
        Ok(ValueRow {
            number: self.number,
            signal,
            entries,
        })
    }
}
