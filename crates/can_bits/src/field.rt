//! Where the bits of a signal are, and their positions.
ghost use Rattle.std.specs.Prelude.{◌≡◌, ◌^◌, ◌<◌, IfOk, map, not};
ghost use Rattle.can_bits.specs.Bits.{field_of, mirrored, position_of, is_outside};
ghost use Rattle.can_bits.specs.Steps.{passed_at};
ghost use Rattle.can_bits.specs.Cells.{numbered};

use dbc_records::{ByteOrder, Signal};
use dbc_values::Memory;
use std::alloc::Global;

/// Where the bits of a signal are: `start|length@order`.
#[derive(Clone, Copy, Debug, PartialEq, Eq)]
pub struct Field {
    /// The position of the start bit.
    pub start: u16,
    /// How many bits there are.
    pub length: u16,
    /// The byte order.
    pub order: ByteOrder,
}

/// The position at which a bit would be, if each byte's bits were counted from its most significant one.
pub(crate) fn mirrored(position: u32) -> u32
    requires { position < 2 ^ 31 }
    ensures { result ≡ mirrored position }
{
    position + 7 - 2 * (position % 8)
}

impl Field {
    /// Where the bits of a signal are.
    pub fn of(signal: &Signal) -> Field
        ensures { result ≡ field_of signal.now }
    {
        Field {
            start: signal.start,
            length: signal.length,
            order: signal.byte_order(),
        }
    }

    /// How many bits, in the field's own order, come before the bit of an index, from the first bit of byte 0 on. Divided by 8 this
    /// is the bit's byte.
    pub(crate) fn passed(self, index: u16) -> u32
        ensures { result ≡ passed_at self index }
    {
        match self.order {
            ByteOrder::Intel => u32::from(self.start) + u32::from(index),
            ByteOrder::Motorola => mirrored(u32::from(self.start)) + u32::from(index),
        }
    }

    /// The position of the bit that comes after this many others, in the field's own order.
    pub(crate) fn numbered(self, passed: u32) -> u32
        requires { passed < 2 ^ 31 }
        ensures { result ≡ numbered self.order passed }
    {
        match self.order {
            ByteOrder::Intel => passed,
            ByteOrder::Motorola => mirrored(passed),
        }
    }

    /// The position of the bit at an index: bit `position % 8` of byte `position / 8`. In Intel byte order index 0 is the least
    /// significant bit, in Motorola byte order the most significant one.
    pub fn position(self, index: u16) -> u32
        requires { index < self.length }
        ensures { result ≡ position_of self index }
    {
        self.numbered(self.passed(index))
    }

    /// Whether one of the bits is not in this many bytes. A field without bits is never outside.
    pub fn is_outside(self, bytes: usize) -> bool
        ensures { result ≡ is_outside bytes self }
    {
        self.length > 0 && self.passed(self.length - 1) as usize / 8 >= bytes
    }
}

/// The position of a signal's bit at an index, as [`Field::position`] gives it.
pub fn position(signal: &Signal, index: u16) -> u32
    requires { index < signal.now.length }
    ensures { result ≡ position_of (field_of signal.now) index }
{
    Field::of(signal).position(index)
}

/// Where the bits of the signals are, in order.
pub fn fields_of(alloc: Global, signals: &[Signal]) -> Result<Vec<Field>, Memory>
    ensures { IfOk result (λ fields. fields.items ≡ map field_of signals.now) }
{
    let mut fields = Vec::with_capacity(alloc, signals.len())?;
    for signal in signals {
        fields.push(Field::of(signal))?;
    }
    Ok(fields)
}
