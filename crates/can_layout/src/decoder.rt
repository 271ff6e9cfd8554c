//! How the values of a signal are read.
ghost use Rattle.std.specs.Prelude.{◌≡◌, ◌≤◌, ◌^◌, ◌+ℤ◌, ◌*ℤ◌, unsigned_abs, length, IfOk, option_map};
ghost use Rattle.can_bits.specs.Bits.{bits_of, field_of, raw_value};
ghost use Rattle.can_layout.specs.Decoders.{unit_text, entries_in, first_entry, name_of};
ghost use Rattle.can_layout.specs.CachedNames.{IsCachedName};

use crate::cached_name::CachedName;
use crate::named::Named;
use crate::naming::ready_unit;
use can_bits::{Field, Steps};
use dbc_records::{Entry, Signal, ValueType};
use dbc_text_buffer::{ReadyText, TextBuffer};
use dbc_values::{Copied, Memory, Scale, Text};
use std::marker::Model;
use std::rc::Rc;

/// How the values of a signal are read.
#[derive(Drop)]
pub struct Decoder {
    // The value descriptions, if there is an entry of them. This field and those up to the bits are read for each line,
    // so they are adjacent.
    named: Option<Rc<Named>>,
    /// The value type: whether raw values have a sign.
    pub value_type: ValueType,
    /// What turns a raw value into a value.
    pub scale: Scale,
    // The text of the unit.
    unit_text: ReadyText,
    /// Where its bits are, and what they count.
    pub bits: Steps,
    /// The unit of values, or the empty text.
    pub unit: Text,
}

impl Model for Decoder {
    ghost use Rattle.std.specs.Prelude.{◌≡◌, option_map};
    ghost use Rattle.dbc_records.specs.Records.{is_signed};
    ghost use Rattle.can_layout.specs.Decoders as decoders;

    ghost Value = { decoders.Decoder };

    ghost view = { λ a. record {
      bits = a.bits;
      signed = is_signed a.value_type;
      scale = a.scale;
      unit = a.unit;
      entries = decoders.entries_in (option_map (λ named. named.value) a.named);
    } };

    ghost invariant = { λ a. decoders.IsDecoder (record {
      bits = a.bits;
      signed = is_signed a.value_type;
      scale = a.scale;
      unit = a.unit;
      entries = decoders.entries_in (option_map (λ named. named.value) a.named);
    })
        × (a.unit_text ≡ decoders.unit_text a.unit) };
}

impl Decoder {
    /// How the values of a signal are read, by a scale for as many bits and by its value descriptions. Its texts are
    /// made in the buffer.
    #[tactic(auto, using(dbc_records::proofs::BitFields::sign_back))]
    pub(crate) fn of(
        buffer: &mut TextBuffer,
        signal: &Signal,
        scale: Scale,
        named: Option<Rc<Named>>,
    ) -> Result<Decoder, Memory>
        requires { scale.length ≡ signal.now.length }
        ensures { IfOk result (λ decoder. decoder ≡ record {
          bits = bits_of (field_of signal.now);
          signed = signal.now.signed;
          scale = scale;
          unit = signal.now.unit;
          entries = entries_in (option_map (λ one. one.value) named);
        }) }
    {
        let bits = Steps::of(buffer.allocator(), Field::of(signal));
        let unit = signal.unit.copy()?;
        let unit_text = ready_unit(buffer, unit.as_bytes())?;
        Ok(Decoder {
            named,
            value_type: signal.value_type(),
            scale,
            unit_text,
            bits,
            unit,
        })
    }

    /// The value descriptions, in the order of the text.
    pub fn entries(&self) -> &[Entry]
        ensures { result.now ≡ self.now.entries }
    {
        match &self.named {
            Some(named) => named.as_ref().entries(),
            None => &[],
        }
    }

    /// The text after a number: a blank and the unit, if there is one.
    pub fn unit_text(&self) -> &ReadyText
        ensures { result.now ≡ unit_text self.now.unit }
    {
        &self.unit_text
    }

    /// What is cached of the name of a raw value.
    pub fn cached_name(&self, raw: i128) -> CachedName<'_>
        ensures { IsCachedName result (name_of raw self.now.entries) }
    {
        match &self.named {
            Some(named) => named.as_ref().cached_name(raw),
            None => CachedName::Unnamed,
        }
    }

    /// The first entry for a raw value. It takes time logarithmic in the number of entries.
    pub fn entry(&self, raw: i128) -> Option<&Entry>
        ensures { option_map (λ entry. entry.now) result ≡ first_entry raw self.now.entries }
    {
        match &self.named {
            Some(named) => named.as_ref().entry(raw),
            None => None,
        }
    }

    /// The raw value in data: in two's complement if the signal is signed. Bits after the end of the data are 0.
    pub fn raw_value(&self, bytes: &[u8]) -> i128
        ensures value { result ≡ raw_value bytes.now self.now.signed self.now.bits }
        ensures in_range { unsigned_abs result ≤ 2 ^ self.now.scale.length }
    {
        self.bits.raw_value(self.value_type, bytes)
    }

    /// The value of a raw value, with the point [`Scale::indexes`] digits from the right.
    pub fn value(&self, raw: i128) -> i128
        requires { unsigned_abs raw ≤ 2 ^ self.now.scale.length }
        ensures { result ≡ (self.now.scale.factor *ℤ raw) +ℤ self.now.scale.offset }
    {
        self.scale.value(raw)
    }
}
