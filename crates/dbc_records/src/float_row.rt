//! Float types of signals.
ghost use Rattle.std.specs.Prelude.{◌≡◌, Some, None, if◌then◌else◌};
ghost use Rattle.dbc_records.specs.Records.{float_fits};

use dbc_values::{Checked, Copied, Memory, Name};
use std::marker::Model;

/// What the raw bits of a signal mean: `SIG_VALTYPE_ number signal : kind ;`. The kind is 0 for a whole number, 1 for an IEEE 754
/// float of 32 bits and 2 for one of 64.
#[derive(Drop)]
pub struct FloatRow {
    /// The CAN identifier of the message.
    pub number: u32,
    /// The name of the signal.
    pub signal: Name,
    /// 0 for a whole number, 1 for a float of 32 bits, 2 for one of 64.
    pub kind: u8,
}

impl Model for FloatRow {
    ghost use Rattle.dbc_records.specs.Records as records;

    ghost Value = { records.FloatRow };

    ghost view = { λ a. record { number = a.number; signal = a.signal; kind = a.kind } };

    ghost invariant = { λ a. records.IsFloatRow (record { number = a.number; signal = a.signal; kind = a.kind }) };
}

impl FloatRow {
    /// The greatest kind: a float of 64 bits.
    pub const MAX_KIND: u8 = 2;

    /// The entry, or `None` if the kind is over [`FloatRow::MAX_KIND`].
    pub fn new(number: u32, signal: Name, kind: u8) -> Option<FloatRow>
        ensures { result ≡ (if float_fits kind then Some (record { number = number; signal = signal; kind = kind }) else None) }
    {
        if kind > FloatRow::MAX_KIND {
            return None;
        }
        Some(FloatRow {
            number,
            signal,
            kind,
        })
    }
}

impl Checked for FloatRow {
    ghost use Rattle.dbc_records.specs.Records.{IsFloatRow};

    ghost IsValid = { IsFloatRow };
}

impl Copied for FloatRow {
    fn copy(&self) -> Result<FloatRow, Memory> {
        let signal = self.signal.copy()?;
        Ok(FloatRow {
            number: self.number,
            signal,
            kind: self.kind,
        })
    }
}
