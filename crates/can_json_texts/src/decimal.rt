//! Exact decimals as numbers of JSON.
ghost use Rattle.std.specs.Prelude.{◌≡◌, ◌∷◌, ◌++◌, ◌≤◌, [], OnOk, decimal, length};
ghost use Rattle.std.specs.Str.{IsUtf8};
ghost use Rattle.json.specs.Print.{IsNumber};
ghost use Rattle.json.specs.Token.{number};
ghost use Rattle.dbc_records.specs.Layout.{zeros, filled, point_before_last, with_exponent, sign_text, magnitude_text};
ghost use Rattle.dbc_records.specs.Layout.{decimal_text};

use crate::text::JsonText;
use crate::value::ToJson;
use dbc_text_buffer::{TextBuffer, push_bytes};
use dbc_values::{Decimal, Memory};
use itoa::Buffer;

// The greatest number of digits that are written before or after a point.
const PLAIN_DIGITS: usize = 20;

fn push_zeros(text: &mut TextBuffer, count: usize) -> Result<(), Memory>
    ensures { OnOk result (text.new.items ≡ text.old.items ++ zeros count) }
{
    for _zero in 0..count {
        text.push(b'0')?;
    }
    Ok(())
}

// Digits with a point before the last of them, padded with zeros in front if there are too few.
#[tactic(auto, using(crate::proofs::Appended::appended_then))]
fn push_fraction(text: &mut TextBuffer, digits: &[u8], after: usize) -> Result<(), Memory>
    ensures { OnOk result (text.new.items ≡ text.old.items ++ point_before_last after (filled after digits.now)) }
{
    if digits.len() > after {
        let (whole, fraction) = digits.split_at(digits.len() - after);
        push_bytes(text, whole)?;
        text.push_piece(b".")?;
        push_bytes(text, fraction)
    } else {
        text.push_piece(b"0.")?;
        push_zeros(text, after - digits.len())?;
        push_bytes(text, digits)
    }
}

// `digits · 10^exponent`, with the exponent.
#[tactic(auto, using(crate::proofs::Appended::appended_then))]
fn push_with_exponent(text: &mut TextBuffer, digits: &[u8], exponent: i16) -> Result<(), Memory>
    ensures { OnOk result (text.new.items ≡ text.old.items ++ with_exponent digits.now exponent) }
{
    let mut buffer = Buffer::new();
    push_bytes(text, digits)?;
    text.push(b'E')?;
    push_bytes(text, buffer.format(exponent).as_bytes())
}

// `digits · 10^exponent`, without an exponent if at most twenty digits are on each side of the point.
#[tactic(auto, using(crate::proofs::Appended::appended_then), unfolding(dbc_records::specs::Layout::magnitude_text))]
fn push_magnitude(text: &mut TextBuffer, digits: &[u8], exponent: i16) -> Result<(), Memory>
    requires { length digits.now ≤ 40 }
    ensures { OnOk result (text.new.items ≡ text.old.items ++ magnitude_text digits.now exponent) }
{
    let count = exponent.unsigned_abs() as usize;
    if exponent >= 0 && digits.len() + count <= PLAIN_DIGITS {
        push_bytes(text, digits)?;
        return push_zeros(text, count);
    }
    if exponent < 0 && count <= PLAIN_DIGITS && digits.len() <= PLAIN_DIGITS + count {
        return push_fraction(text, digits, count);
    }
    push_with_exponent(text, digits, exponent)
}

#[tactic(auto, unfolding(dbc_records::specs::Layout::sign_text))]
fn push_sign(text: &mut TextBuffer, negative: bool) -> Result<(), Memory>
    ensures { OnOk result (text.new.items ≡ text.old.items ++ sign_text negative) }
{
    text.push_if(negative, b'-')
}

fn push_unsigned(text: &mut TextBuffer, mantissa: u128, exponent: i16) -> Result<(), Memory>
    ensures { OnOk result (text.new.items ≡ text.old.items ++ magnitude_text (decimal mantissa) exponent) }
{
    let mut buffer = Buffer::new();
    push_magnitude(text, buffer.format(mantissa).as_bytes(), exponent)
}

// The decimal: digits with a point if at most twenty are on each side of it, otherwise like `1E-31`.
#[tactic(auto, using(crate::proofs::Appended::appended_then, crate::proofs::Numbers::decimal_is_number, crate::proofs::Numbers::decimal_is_utf8), unfolding(dbc_records::specs::Layout::decimal_text))]
fn push_decimal(text: &mut TextBuffer, number: &Decimal) -> Result<(), Memory>
    ensures text { OnOk result (text.new.items ≡ text.old.items ++ decimal_text number.now) }
    ensures number { IsNumber (decimal_text number.now) }
    ensures utf8 { IsUtf8 (decimal_text number.now) }
{
    push_sign(text, number.negative)?;
    push_unsigned(text, number.mantissa, number.exponent)
}

impl JsonText {
    /// The exact decimal, as a number.
    pub fn decimal(&mut self, value: &Decimal) -> Result<(), Memory>
        ensures { OnOk result (self.new ≡ self.old ++ number (decimal_text value.now) ∷ []) }
    {
        let mut digits = TextBuffer::new(self.allocator());
        push_decimal(&mut digits, value)?;
        match std::str::from_utf8(digits.as_slice()) {
            Ok(digits) => self.number(digits),
            Err(_) => unreachable!(),
        }
    }
}

impl ToJson for Decimal {
    ghost use Rattle.can_json_texts.specs.Records.{decimal_json};

    ghost json_of = { decimal_json };

    fn write(&self, text: &mut JsonText) -> Result<(), Memory> {
        text.decimal(self)
    }
}
