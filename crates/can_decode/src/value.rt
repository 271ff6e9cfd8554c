//! The values of signals, as text.
ghost use Rattle.std.specs.Prelude.{◌≡◌, ◌<◌, ◌≤◌, ◌++◌, ◌^◌, IfSome, OnOk, decimal, length, pos, unsigned_abs};
ghost use Rattle.dbc_records.specs.Layout.{point_before_last, filled, zeros};
ghost use Rattle.can_decode.specs.Values.{fewest_places, fixed_text, sign_of, scaled_text, number_text, decoder_text, reading_text};

use can_layout::{CachedName, Decoder, Reading};
use dbc_text_buffer::{Digits, EightDigits, TextBuffer, push_bytes, push_shown, push_small_number};
use dbc_values::Memory;
use itoa::Buffer;

// The same number with the fewest decimal places, if it fits in one word, as most do.
fn fewest_places_of_word(digits: u64, places: u8) -> (u64, u8)
    ensures digits { result.0 ≡ (fewest_places digits places).digits }
    ensures places { result.1 ≡ (fewest_places digits places).places }
{
    let mut number = digits;
    let mut after = places;
    while after > 0 && number % 10 == 0 {
        number /= 10;
        after -= 1;
    }
    (number, after)
}

// The same for any number.
fn fewest_places_of_any(digits: u128, places: u8) -> (u128, u8)
    ensures digits { result.0 ≡ (fewest_places digits places).digits }
    ensures places { result.1 ≡ (fewest_places digits places).places }
{
    let mut number = digits;
    let mut after = places;
    while after > 0 && number % 10 == 0 {
        number /= 10;
        after -= 1;
    }
    (number, after)
}

fn push_zeros(text: &mut TextBuffer, count: usize) -> Result<(), Memory>
    ensures { OnOk result (text.new.items ≡ text.old.items ++ zeros count) }
{
    for _zero in 0..count {
        text.push(b'0')?;
    }
    Ok(())
}

// Digits with a point before the last of them, padded with zeros in front if there are too few.
#[tactic(auto, using(crate::proofs::Pushing::pushed_then))]
fn push_pointed(text: &mut TextBuffer, digits: &[u8], places: usize) -> Result<(), Memory>
    ensures { OnOk result (text.new.items ≡ text.old.items ++ point_before_last places (filled places digits.now)) }
{
    if digits.len() > places {
        let (whole, after) = digits.split_at(digits.len() - places);
        push_bytes(text, whole)?;
        text.push_piece(b".")?;
        push_bytes(text, after)
    } else {
        text.push_piece(b"0.")?;
        push_zeros(text, places - digits.len())?;
        push_bytes(text, digits)
    }
}

// The same if there are more digits than decimal places.
#[tactic(auto, using(crate::proofs::Pushing::pushed_then))]
fn push_parted(text: &mut TextBuffer, digits: &Digits, places: usize) -> Result<(), Memory>
    requires { places < length digits.now }
    ensures { OnOk result (text.new.items ≡ text.old.items ++ point_before_last places (filled places digits.now)) }
{
    let whole = digits.len() - places;
    digits.push_first(text, whole)?;
    text.push_piece(b".")?;
    digits.push_after(text, whole)
}

// A whole number of one word with the point that many places from the right.
#[tactic(auto, unfolding(crate::specs::Values::fixed_text))]
fn push_fixed_word(text: &mut TextBuffer, number: u64, places: u8) -> Result<(), Memory>
    ensures { OnOk result (text.new.items ≡ text.old.items ++ fixed_text (record { digits = number; places = places })) }
{
    let mut digits = Digits::none();
    digits.write(number);
    let after = places as usize;
    if places == 0 {
        digits.push_first(text, digits.len())
    } else if digits.len() > after {
        push_parted(text, &digits, after)
    } else {
        push_pointed(text, digits.as_slice(), after)
    }
}

// Any whole number with the point that many places from the right.
#[tactic(auto, unfolding(crate::specs::Values::fixed_text))]
fn push_fixed_any(text: &mut TextBuffer, digits: u128, places: u8) -> Result<(), Memory>
    ensures { OnOk result (text.new.items ≡ text.old.items ++ fixed_text (record { digits = digits; places = places })) }
{
    let mut space = Buffer::new();
    let number = space.format(digits).as_bytes();
    if places == 0 {
        push_bytes(text, number)
    } else {
        push_pointed(text, number, places as usize)
    }
}

fn push_sign(text: &mut TextBuffer, value: i128) -> Result<(), Memory>
    ensures { OnOk result (text.new.items ≡ text.old.items ++ sign_of value) }
{
    text.push_if(value < 0, b'-')
}

// A number of at most eight digits over ten to the number of decimal places, by parts of its digits.
#[inline(always)]
fn push_short(text: &mut TextBuffer, number: u32, places: u8) -> Result<(), Memory>
    requires number { number < 10 ^ 8 }
    requires places { places < 8 }
    ensures { OnOk result (text.new.items ≡ text.old.items ++ fixed_text (fewest_places number places)) }
{
    let digits = EightDigits::of(number);
    let places = usize::from(places);
    let leading = digits.leading_zeros().min(7 - places);
    let trailing = digits.trailing_zeros().min(places);
    digits.push_part(text, leading, 8 - places - leading)?;
    digits.push_fraction(text, 7 - places, places - trailing)
}

// A number of one word over ten to the number of decimal places. Most values have at most eight digits.
#[inline(always)]
#[tactic(auto, unfolding(crate::specs::Values::fixed_text))]
fn push_shortest_word(text: &mut TextBuffer, number: u64, places: u8) -> Result<(), Memory>
    ensures { OnOk result (text.new.items ≡ text.old.items ++ fixed_text (fewest_places number places)) }
{
    if places == 0 && number < 1000 {
        return push_small_number(text, number as u16);
    }
    if places < 8 && number < 100_000_000 {
        return push_short(text, number as u32, places);
    }
    let (digits, after) = fewest_places_of_word(number, places);
    push_fixed_word(text, digits, after)
}

// A number over ten to the number of decimal places.
#[inline(always)]
#[tactic(auto, unfolding(crate::specs::Values::fixed_text))]
fn push_shortest(text: &mut TextBuffer, number: u128, places: u8) -> Result<(), Memory>
    ensures { OnOk result (text.new.items ≡ text.old.items ++ fixed_text (fewest_places number places)) }
{
    match u64::try_from(number) {
        Ok(word) => push_shortest_word(text, word, places),
        Err(_) => {
            let (digits, after) = fewest_places_of_any(number, places);
            push_fixed_any(text, digits, after)
        }
    }
}

// A value as a whole number below a thousand.
#[inline(always)]
fn below_thousand(value: i128) -> Option<u16>
    ensures number { IfSome result (λ number. value ≡ pos number) }
    ensures below { IfSome result (λ number. number < 1000) }
{
    if 0 <= value && value < 1000 {
        Some(value as u16)
    } else {
        None
    }
}

// A value over ten to the number of decimal places, as a number below a thousand, if it is one without a sign and a point.
// Multiplexors (switches) and states are such numbers, and many values are zero.
#[inline(always)]
#[tactic(auto, using(crate::proofs::SmallNumbers::whole_text, crate::proofs::SmallNumbers::zero_text))]
fn small_number(value: i128, places: u8) -> Option<u16>
    ensures below { IfSome result (λ number. number < 1000) }
    ensures text { IfSome result (λ number. scaled_text value places ≡ decimal number) }
{
    let number = below_thousand(value)?;
    if places == 0 || number == 0 {
        Some(number)
    } else {
        None
    }
}

// A value over ten to the number of decimal places, with its sign.
#[inline(always)]
#[tactic(auto, using(crate::proofs::Pushing::pushed_then), unfolding(crate::specs::Values::scaled_text))]
fn push_signed(text: &mut TextBuffer, value: i128, places: u8) -> Result<(), Memory>
    ensures { OnOk result (text.new.items ≡ text.old.items ++ scaled_text value places) }
{
    push_sign(text, value)?;
    push_shortest(text, value.unsigned_abs(), places)
}

/// Appends a value over ten to the number of decimal places, as an exact decimal.
#[inline(always)]
pub fn push_scaled(text: &mut TextBuffer, value: i128, places: u8) -> Result<(), Memory>
    ensures { OnOk result (text.new.items ≡ text.old.items ++ scaled_text value places) }
{
    match small_number(value, places) {
        Some(number) => push_small_number(text, number),
        None => push_signed(text, value, places),
    }
}

// A value as a number with its unit.
#[tactic(auto, using(crate::proofs::Pushing::pushed_then))]
fn push_number(text: &mut TextBuffer, decoder: &Decoder, raw: i128) -> Result<(), Memory>
    requires { unsigned_abs raw ≤ 2 ^ decoder.now.scale.length }
    ensures { OnOk result (text.new.items ≡ text.old.items ++ number_text decoder.now raw) }
{
    push_scaled(text, decoder.value(raw), decoder.scale.places())?;
    decoder.unit_text().push_to(text)
}

// A value by its name, which is looked up among the value descriptions, or as a number.
#[inline(always)]
fn push_searched(text: &mut TextBuffer, decoder: &Decoder, raw: i128) -> Result<(), Memory>
    requires { unsigned_abs raw ≤ 2 ^ decoder.now.scale.length }
    ensures { OnOk result (text.new.items ≡ text.old.items ++ decoder_text decoder.now raw) }
{
    match decoder.entry(raw) {
        Some(entry) => push_shown(text, entry.text.as_bytes()),
        None => push_number(text, decoder, raw),
    }
}

// A value by its name, or as a number. Most names are ready-made.
#[inline(always)]
#[tactic(auto, using(crate::proofs::Named::with_name, crate::proofs::Named::without_name))]
fn push_value(text: &mut TextBuffer, decoder: &Decoder, raw: i128) -> Result<(), Memory>
    requires { unsigned_abs raw ≤ 2 ^ decoder.now.scale.length }
    ensures { OnOk result (text.new.items ≡ text.old.items ++ decoder_text decoder.now raw) }
{
    match decoder.cached_name(raw) {
        CachedName::Name(name) => name.push_to(text),
        CachedName::Unnamed => push_number(text, decoder, raw),
        CachedName::NotCached => push_searched(text, decoder, raw),
    }
}

/// The value of a signal in data, or why there is none.
#[inline(always)]
#[tactic(auto, using(crate::proofs::Pushing::pushed_then))]
pub(crate) fn push_reading(
    text: &mut TextBuffer,
    reading: &Reading,
    bytes: &[u8],
) -> Result<(), Memory>
    ensures { OnOk result (text.new.items ≡ text.old.items ++ reading_text bytes.now reading.now) }
{
    match reading {
        Reading::Read(decoder) => push_value(text, decoder, decoder.raw_value(bytes)),
        Reading::Refused(cause) => {
            text.push_piece(b"?")?;
            push_bytes(text, cause.word())
        }
    }
}
