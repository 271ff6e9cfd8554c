//! Laws of the definitions. The functions do nothing: what they ensure is the law.
ghost use Rattle.std.specs.Prelude.{◌≡◌, ℕ, ◌+◌, true, false};
ghost use Rattle.dbc_records.specs.Records.{is_intel};
ghost use Rattle.can_bits.specs.declared.field.Field.{Field};
ghost use Rattle.can_bits.specs.Bits.{position_of};
ghost use Rattle.can_bits.specs.Stepping.{next_bit, position_after};

/// The bits of a field are where the format puts them. The first is at the start bit. In Intel byte order each next one is one
/// position up. In Motorola byte order it is the next lower bit of its byte, and after bit 0 bit 7 of the next byte.
pub fn steps_of_positions()
    ensures first { (field : Field) → position_of field 0 ≡ field.start }
    ensures up { (field : Field) (index : ℕ) → is_intel field.order ≡ true → position_of field (index + 1)
        ≡ position_of field index + 1 }
    ensures down { (field : Field) (index : ℕ) → is_intel field.order ≡ false → position_of field (index + 1)
        ≡ next_bit (position_of field index) }
    ensures all { (field : Field) (index : ℕ) → position_of field index ≡ position_after field.order field.start index }
{}
