//! Signals.
ghost use Rattle.std.specs.Prelude.{◌≡◌, Some, None, if◌then◌else◌};
ghost use Rattle.dbc_records.specs.Records.{signal_fits, byte_order, value_type};

use crate::byte_order::ByteOrder;
use crate::tag::Tag;
use crate::value_type::ValueType;
use dbc_values::{Checked, Copied, Decimal, List, Memory, Name, Text};
use std::marker::Model;

/// A signal of a message: `SG_ name tag : start|length@order sign (factor,offset) [minimum|maximum] "unit" receivers`.
///
/// `start` and `length` are in bits; `start` is the least significant bit in Intel byte order and the most significant bit in
/// Motorola byte order. The physical value is `factor · raw + offset`.
#[derive(Drop)]
pub struct Signal {
    /// The signal's name.
    pub name: Name,
    /// The multiplexer indicator of the signal.
    pub tag: Tag,
    /// The position of its start bit: the least significant bit in Intel byte order, the most significant in Motorola byte order.
    pub start: u16,
    /// How many bits it has.
    pub length: u16,
    /// Whether the byte order is Intel (`1`) rather than Motorola (`0`).
    pub intel: bool,
    /// Whether raw values are signed (`-`, two's complement) rather than unsigned (`+`).
    pub signed: bool,
    /// What a raw value is multiplied by.
    pub factor: Decimal,
    /// What is added after that.
    pub offset: Decimal,
    /// The least value as the database gives it; it bounds nothing.
    pub minimum: Decimal,
    /// The greatest value as the database gives it; it bounds nothing.
    pub maximum: Decimal,
    /// The unit of values, or the empty text.
    pub unit: Text,
    /// The nodes that receive it.
    pub receivers: List<Name>,
}

impl Model for Signal {
    ghost use Rattle.dbc_records.specs.Records as records;

    ghost Value = { records.Signal };

    ghost view = { λ a. record {
      name = a.name;
      tag = a.tag;
      start = a.start;
      length = a.length;
      intel = a.intel;
      signed = a.signed;
      factor = a.factor;
      offset = a.offset;
      minimum = a.minimum;
      maximum = a.maximum;
      unit = a.unit;
      receivers = a.receivers;
    } };

    ghost invariant = { λ a. records.IsSignal (record {
      name = a.name;
      tag = a.tag;
      start = a.start;
      length = a.length;
      intel = a.intel;
      signed = a.signed;
      factor = a.factor;
      offset = a.offset;
      minimum = a.minimum;
      maximum = a.maximum;
      unit =
          a.unit;
      receivers = a.receivers;
    }) };
}

impl Signal {
    /// The most bits that a signal may have: those of a message of [`Head::MAX_SIZE`](crate::Head::MAX_SIZE) bytes.
    pub const MAX_LENGTH: u16 = 14_280;

    /// The signal, or `None` if the length is 0 or over [`Signal::MAX_LENGTH`].
    pub fn new(
        name: Name,
        tag: Tag,
        start: u16,
        length: u16,
        intel: bool,
        signed: bool,
        factor: Decimal,
        offset: Decimal,
        minimum: Decimal,
        maximum: Decimal,
        unit: Text,
        receivers: List<Name>,
    ) -> Option<Signal>
        ensures { result ≡ (if signal_fits length then Some (record {
          name = name;
          tag = tag;
          start = start;
          length = length;
          intel = intel;
          signed = signed;
          factor = factor;
          offset = offset;
          minimum = minimum;
          maximum = maximum;
          unit = unit;
          receivers = receivers;
        }) else None) }
    {
        if length == 0 || length > Signal::MAX_LENGTH {
            return None;
        }
        Some(Signal {
            name,
            tag,
            start,
            length,
            intel,
            signed,
            factor,
            offset,
            minimum,
            maximum,
            unit,
            receivers,
        })
    }

    /// The byte order.
    pub fn byte_order(&self) -> ByteOrder
        ensures { result ≡ byte_order self.now.intel }
    {
        if self.intel {
            ByteOrder::Intel
        } else {
            ByteOrder::Motorola
        }
    }

    /// The value type.
    pub fn value_type(&self) -> ValueType
        ensures { result ≡ value_type self.now.signed }
    {
        if self.signed {
            ValueType::Signed
        } else {
            ValueType::Unsigned
        }
    }
}

impl Checked for Signal {
    ghost use Rattle.dbc_records.specs.Records.{IsSignal};

    ghost IsValid = { IsSignal };
}

impl Copied for Signal {
    fn copy(&self) -> Result<Signal, Memory> {
        let name = self.name.copy()?;
        let unit = self.unit.copy()?;
        let receivers = self.receivers.copy()?;
        Ok(Signal {
            name,
            tag: self.tag,
            start: self.start,
            length: self.length,
            intel: self.intel,
            signed: self.signed,
            factor: self.factor,
            offset: self.offset,
            minimum: self.minimum,
            maximum: self.maximum,
            unit,
            receivers,
        })
    }
}
