//! Extended multiplexing.
ghost use Rattle.std.specs.Prelude.{◌≡◌, Some, None, if◌then◌else◌};
ghost use Rattle.dbc_records.specs.Records.{ranges_fit};

use crate::numbers::Numbers;
use dbc_values::{Checked, Copied, Memory, Name};
use std::marker::Model;

/// The numbers from `first` to `last`, both included. There are none if `first` is the greater.
#[derive(Clone, Copy, Debug, PartialEq, Eq)]
pub struct Range {
    /// The first number.
    pub first: u64,
    /// The last number.
    pub last: u64,
}

/// A signal that is present if its multiplexor (switch) has a raw value in one of the ranges:
/// `SG_MUL_VAL_ number signal switch ranges ;`.
#[derive(Drop)]
pub struct MuxRow {
    /// The CAN identifier of the message.
    pub number: u32,
    /// The name of the multiplexed signal.
    pub signal: Name,
    /// The name of its multiplexor.
    pub switch: Name,
    /// The raw values of the multiplexor for which the signal is present.
    pub ranges: Numbers,
}

impl Model for MuxRow {
    ghost use Rattle.dbc_records.specs.Records as records;

    ghost Value = { records.MuxRow };

    ghost view = { λ a. record { number = a.number; signal = a.signal; switch = a.switch; ranges = a.ranges } };

    ghost invariant = { λ a.
        records.IsMuxRow (record { number = a.number; signal = a.signal; switch = a.switch; ranges = a.ranges }) };
}

impl MuxRow {
    /// The entry, or `None` if there is no range.
    pub fn new(number: u32, signal: Name, switch: Name, ranges: Numbers) -> Option<MuxRow>
        ensures { result ≡ (if ranges_fit ranges then Some (record {
          number = number;
          signal = signal;
          switch = switch;
          ranges = ranges;
        }) else None) }
    {
        if ranges.as_slice().is_empty() {
            return None;
        }
        Some(MuxRow {
            number,
            signal,
            switch,
            ranges,
        })
    }
}

impl Checked for Range {
    ghost use Rattle.dbc_records.specs.Records.{IsRange};

    ghost IsValid = { IsRange };
}

impl Copied for Range {
    fn copy(&self) -> Result<Range, Memory> {
        Ok(*self)
    }
}

impl Checked for MuxRow {
    ghost use Rattle.dbc_records.specs.Records.{IsMuxRow};

    ghost IsValid = { IsMuxRow };
}

impl Copied for MuxRow {
    fn copy(&self) -> Result<MuxRow, Memory> {
        let signal = self.signal.copy()?;
        let switch = self.switch.copy()?;
        let ranges = self.ranges.copy()?;
        Ok(MuxRow {
            number: self.number,
            signal,
            switch,
            ranges,
        })
    }
}
