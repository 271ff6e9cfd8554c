//! A plan's row for a signal.
ghost use Rattle.std.specs.Prelude.{◌≡◌};
ghost use Rattle.can_layout.specs.Plans.{is_whole};

use crate::decoder::Decoder;
use crate::refusal::Cause;
use crate::switch_chain::Chain;
use can_bits::Field;
use dbc_values::{Checked, Name};

/// How a signal is read, or why it can't be.
#[derive(Drop)]
pub enum Reading {
    /// It can't be decoded.
    Refused(Cause),
    /// It is read in this way.
    Read(Decoder),
}

/// A signal of a plan.
#[derive(Drop)]
pub struct Row {
    /// Its multiplexors (switches), from its own up, if its multiplexing chain is a chain.
    pub chain: Option<Chain>,
    /// How it is read.
    pub reading: Reading,
    /// The signal's name.
    pub name: Name,
    /// Where its bits are, even if it can't be decoded.
    pub field: Field,
}

impl Checked for Row {
    ghost IsValid = { λ row. Unit {0} };
}

impl Row {
    /// Whether all bits of the signal are in data.
    pub fn is_whole(&self, bytes: &[u8]) -> bool
        ensures { result ≡ is_whole bytes.now self.now }
    {
        !self.field.is_outside(bytes.len())
    }
}
