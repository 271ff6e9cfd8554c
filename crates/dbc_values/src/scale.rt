//! The scale of a signal, in whole numbers.
ghost use Rattle.std.specs.Prelude.{◌≡◌, ℕ, ◌*◌, ◌+ℤ◌, ◌*ℤ◌, ◌^◌, ◌≤◌, nat_lt, Some, None, unsigned_abs, if◌then◌else◌};
ghost use Rattle.dbc_values.specs.Scales.{digits_after, places_of, magnitude_at, signed, whole_at, reach_fits, scale_fits};
ghost use Rattle.dbc_values.specs.Scales.{scale_of};

use crate::decimal::Decimal;
use crate::number::{LIMIT, with_zeros};
use std::marker::Model;

/// Turns the raw number of a signal into its value: `factor · raw + offset`, both as whole numbers, with the point that many places
/// from the right. No value is rounded, and each has at most 38 digits.
#[derive(Clone, Copy, Debug, PartialEq, Eq)]
pub struct Scale {
    factor: i128,
    offset: i128,
    places: u8,
    length: u8,
}

impl Model for Scale {
    ghost use Rattle.dbc_values.specs.Scales as scales;

    ghost Value = { scales.Scale };

    ghost view = { λ a. record { factor = a.factor; offset = a.offset; places = a.places; length = a.length } };

    ghost invariant = { λ a.
        scales.IsScale (record { factor = a.factor; offset = a.offset; places = a.places; length = a.length }) };

    ghost inverse = { λ s. record { factor = s.factor; offset = s.offset; places = s.places; length = s.length } };
}

fn digits_after(exponent: i16) -> u16
    ensures { result ≡ digits_after exponent }
{
    if exponent < 0 {
        exponent.unsigned_abs()
    } else {
        0
    }
}

/// The least number of decimal places at which both decimals are whole.
fn places_of(factor: &Decimal, offset: &Decimal) -> u16
    ensures { result ≡ places_of factor.now offset.now }
{
    digits_after(factor.exponent).max(digits_after(offset.exponent))
}

fn signed(negative: bool, number: u128) -> i128
    requires { number ≤ 10 ^ 38 }
    ensures { result ≡ signed negative number }
{
    if negative {
        -(number as i128)
    } else {
        number as i128
    }
}

/// The decimal as a whole number once its point is moved that many places, if that has at most 38 digits.
fn whole_at(places: u16, decimal: &Decimal) -> Option<i128>
    requires { digits_after decimal.now.exponent ≤ places }
    ensures { result ≡ (if nat_lt (magnitude_at places decimal.now) (10 ^ 38) then Some (whole_at places decimal.now) else None) }
{
    let zeros = i32::from(places) + i32::from(decimal.exponent);
    let magnitude = with_zeros(decimal.mantissa, zeros as u128)?;
    Some(signed(decimal.negative, magnitude))
}

/// Whether all values are within the bound.
fn reach_fits(factor: u128, offset: u128, length: u8) -> bool
    requires { length ≤ 64 }
    ensures { result ≡ reach_fits factor offset length }
{
    match factor.checked_mul(1 << length) {
        Some(product) => match product.checked_add(offset) {
            Some(sum) => sum < LIMIT,
            None => false,
        },
        None => false,
    }
}

impl Scale {
    /// The most raw bits of a signal that has a scale.
    pub const MAX_LENGTH: u16 = 64;

    /// The most digits after the point of a value.
    pub const MAX_PLACES: u16 = 36;

    /// The scale of a signal with this factor, offset and length in bits, or `None` if the length is over
    /// [`Scale::MAX_LENGTH`], if factor or offset has more than [`Scale::MAX_PLACES`] digits after its point, or if some value
    /// could have more than 38 digits.
    pub fn of(factor: &Decimal, offset: &Decimal, length: u16) -> Option<Scale>
        ensures { result ≡ (if scale_fits factor.now offset.now length then Some (scale_of factor.now offset.now length) else
            None) }
    {
        let places = places_of(factor, offset);
        if length > Scale::MAX_LENGTH || places > Scale::MAX_PLACES {
            return None;
        }
        let whole_factor = whole_at(places, factor)?;
        let whole_offset = whole_at(places, offset)?;
        if !reach_fits(
            whole_factor.unsigned_abs(),
            whole_offset.unsigned_abs(),
            length as u8,
        ) {
            return None;
        }
        Some(Scale {
            factor: whole_factor,
            offset: whole_offset,
            places: places as u8,
            length: length as u8,
        })
    }

    /// The value of a raw number, as a whole number whose point is [`Scale::places`] digits from the right.
    pub fn value(self, raw: i128) -> i128
        requires { unsigned_abs raw ≤ 2 ^ self.length }
        ensures { result ≡ (self.factor *ℤ raw) +ℤ self.offset }
    {
        self.factor * raw + self.offset
    }

    /// How many digits of a value are after its point.
    pub fn places(self) -> u8
        ensures { result ≡ self.places }
    {
        self.places
    }
}
