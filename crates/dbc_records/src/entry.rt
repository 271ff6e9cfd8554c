//! The entries of value tables.
ghost use Rattle.std.specs.Prelude.{◌≡◌, Some, None, if◌then◌else◌};
ghost use Rattle.dbc_records.specs.Records.{entry_fits};

use dbc_values::{Checked, Copied, Memory, Text};
use std::marker::Model;

/// A raw value and the text that is shown for it.
#[derive(Drop)]
pub struct Entry {
    /// The raw value.
    pub number: i128,
    /// Its name.
    pub text: Text,
}

impl Model for Entry {
    ghost use Rattle.dbc_records.specs.Records as records;

    ghost Value = { records.Entry };

    ghost view = { λ a. record { number = a.number; text = a.text } };

    ghost invariant = { λ a. records.IsEntry (record { number = a.number; text = a.text }) };
}

impl Entry {
    /// The least raw value of an entry: that of a signed 64-bit signal.
    pub const MIN_NUMBER: i128 = -9_223_372_036_854_775_808;

    /// The greatest raw value of an entry: that of an unsigned 64-bit signal.
    pub const MAX_NUMBER: i128 = 18_446_744_073_709_551_615;

    /// The entry, or `None` if the raw value is below [`Entry::MIN_NUMBER`] or over [`Entry::MAX_NUMBER`].
    pub fn new(number: i128, text: Text) -> Option<Entry>
        ensures { result ≡ (if entry_fits number then Some (record { number = number; text = text }) else None) }
    {
        if number < Entry::MIN_NUMBER || number > Entry::MAX_NUMBER {
            return None;
        }
        Some(Entry { number, text })
    }
}

impl Checked for Entry {
    ghost use Rattle.dbc_records.specs.Records.{IsEntry};

    ghost IsValid = { IsEntry };
}

impl Copied for Entry {
    fn copy(&self) -> Result<Entry, Memory> {
        let text = self.text.copy()?;
        Ok(Entry {
            number: self.number,
            text,
        })
    }
}
