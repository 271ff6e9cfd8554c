//! Parent multiplexors of signals.
ghost use Rattle.std.specs.Prelude.{◌≡◌};
ghost use Rattle.std.specs.List.{list_any};
ghost use Rattle.dbc_records.specs.Ranges.{in_range};

use dbc_records::{Numbers, Range};
use dbc_values::{Checked, Copied, Memory};
use std::marker::Model;

/// A signal's parent multiplexor (switch), and its raw values for which the signal is present. Copies share the raw values.
#[derive(Drop)]
pub struct Link {
    /// The index of the multiplexor in its message.
    pub switch: usize,
    numbers: Numbers,
}

impl Model for Link {
    ghost use Rattle.can_entries.specs.Links as links;

    ghost Value = { links.Link };

    ghost view = { λ a. record { switch = a.switch; ranges = a.numbers } };

    ghost invariant = { λ a. links.IsLink (record { switch = a.switch; ranges = a.numbers }) };
}

impl Checked for Link {
    ghost use Rattle.can_entries.specs.Links.{IsLink};

    ghost IsValid = { IsLink };
}

impl Copied for Link {
    fn copy(&self) -> Result<Link, Memory> {
        let numbers = self.numbers.copy()?;
        Ok(Link {
            switch: self.switch,
            numbers,
        })
    }
}

impl Link {
    /// A multiplexor at an index, and the raw values.
    pub fn new(switch: usize, numbers: Numbers) -> Link
        ensures { result ≡ record { switch = switch; ranges = numbers } }
    {
        Link { switch, numbers }
    }

    /// The raw values.
    pub fn ranges(&self) -> &[Range]
        ensures { result.now ≡ self.now.ranges }
    {
        self.numbers.as_slice()
    }

    /// Whether the multiplexor's raw bits, as an unsigned number, are one of the raw values. If there are many ranges, this takes
    /// time logarithmic in their count.
    pub fn has(&self, raw: u64) -> bool
        ensures { result ≡ list_any (in_range raw) self.now.ranges }
    {
        self.numbers.has(raw)
    }
}
