//! Exact decimals.
ghost use Rattle.std.specs.Prelude.{◌≡◌, MatchOption};
ghost use Rattle.std.specs.Str.Parse.{starts_with_minus, without_leading_sign};
ghost use Rattle.dbc_values.specs.Decimals.{Decimal as Decimals, SpellsDecimal, SpellsSigned, decimal_of_number};

use crate::number::Reduced;
use std::marker::Model;

/// The number `mantissa · 10^exponent`, negated if it is negative, in normal form: at most 36 digits of which the last is not zero,
/// and an exponent from -400 to 400. Zero has no sign and the exponent 0, so equal numbers are equal values.
#[derive(Clone, Copy, Debug, PartialEq, Eq)]
pub struct Decimal {
    /// Its digits as a whole number, without zeros at their end.
    pub mantissa: u128,
    /// The power of ten by which the mantissa is multiplied.
    pub exponent: i16,
    /// Whether the number is below zero.
    pub negative: bool,
}

impl Model for Decimal {
    ghost use Rattle.dbc_values.specs.Decimals as decimals;

    ghost Value = { decimals.Decimal };

    ghost view = { λ a. record { negative = a.negative; mantissa = a.mantissa; exponent = a.exponent } };

    ghost invariant = { λ a. decimals.IsDecimal (record { negative = a.negative; mantissa = a.mantissa; exponent = a.exponent }) };

    ghost inverse = { λ d. record { negative = d.negative; mantissa = d.mantissa; exponent = d.exponent } };
}

impl Decimal {
    /// The least exponent is the negation of this, the greatest is this.
    pub const MAX_EXPONENT: i16 = 400;

    fn spelled(negative: bool, number: &[u8]) -> Option<Decimal>
        ensures { MatchOption result ((d : Decimals) → SpellsDecimal negative number.now d
            → ⊥) (SpellsDecimal negative number.now) }
    {
        let number = Reduced::read(number)?;
        let mantissa = number.digits?;
        if mantissa == 0 {
            return Some(Decimal {
                negative: false,
                mantissa: 0,
                exponent: 0,
            });
        }
        let bound = i128::from(Decimal::MAX_EXPONENT);
        if number.exponent < -bound || number.exponent > bound {
            return None;
        }
        Some(Decimal {
            negative,
            mantissa,
            exponent: number.exponent as i16,
        })
    }

    /// The decimal that a number without a sign is, negated if `negative` is true, or `None` if the bytes are no number, if it
    /// takes more than 36 digits, or if its exponent, the zeros at the end of its digits counted with it, is beyond
    /// [`Decimal::MAX_EXPONENT`]. A zero is 0 whatever its sign and exponent.
    pub fn of_number(negative: bool, number: &[u8]) -> Option<Decimal>
        ensures spells { MatchOption result ((d : Decimals) → SpellsDecimal negative number.now d
            → ⊥) (SpellsDecimal negative number.now) }
        ensures value { result ≡ decimal_of_number negative number.now }
    {
        Decimal::spelled(negative, number)
    }

    /// The decimal of a number that may have a sign before it; [`Decimal::of_number`] states when there is none.
    pub fn read(bytes: &[u8]) -> Option<Decimal>
        ensures spells { MatchOption result ((d : Decimals) → SpellsSigned bytes.now d → ⊥) (SpellsSigned bytes.now) }
        ensures value { result ≡ decimal_of_number (starts_with_minus bytes.now) (without_leading_sign bytes.now) }
    {
        match bytes {
            [b'-', number @ ..] => Decimal::of_number(true, number),
            [b'+', number @ ..] => Decimal::of_number(false, number),
            number => Decimal::of_number(false, number),
        }
    }
}
