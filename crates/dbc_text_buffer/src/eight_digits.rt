//! The eight digits of a number, in one word.
ghost use Rattle.std.specs.Prelude.{◌≡◌, [], ◌∷◌, ◌+◌, ◌-◌, ◌*◌, ◌/◌, ◌%◌, ◌^◌, ◌<◌, ◌≤◌, ◌==◌, ◌++◌, OnOk, take, drop};
ghost use Rattle.std.specs.Prelude.{if◌then◌else◌};
ghost use Rattle.std.specs.Int.{w64, to_le_bytes};
ghost use Rattle.dbc_values.specs.Lexical.{point};
ghost use Rattle.dbc_text_buffer.specs.EightDigits.{eight_digits, StartsWithZeros, EndsInZeros};

use crate::text_buffer::TextBuffer;
use dbc_values::Memory;
use std::marker::Model;

// How many digits there are.
const COUNT: usize = 8;

// Eight zeros, as the bytes of a word.
const ZEROS: u64 = 0x3030_3030_3030_3030;

// A point, as the lowest byte of a word.
const POINT: u64 = 46;

// The digits of the numbers below a hundred, two for each.
static PAIRS: [u8; 200] = *b"\
    0001020304050607080910111213141516171819202122232425262728293031323334353637383940414243444546474849\
    5051525354555657585960616263646566676869707172737475767778798081828384858687888990919293949596979899";

/// The digits of a number below a hundred million, with zeros in front. How many of them are zeros is found, and parts of them are
/// appended, without a branch on how many there are, which a processor can't predict.
#[derive(Drop)]
pub struct EightDigits {
    number: u32,
    // The digits as the bytes of a word, the first of them the lowest.
    word: u64,
}

impl Model for EightDigits {
    ghost use Rattle.std.specs.Prelude.{List, ℕ, ◌≡◌, ◌<◌, ◌^◌};
    ghost use Rattle.std.specs.Int.{w64, to_le_bytes};
    ghost use Rattle.dbc_text_buffer.specs.EightDigits.{eight_digits};

    ghost Value = { List ℕ };

    ghost view = { λ a. eight_digits a.number };

    ghost invariant = { λ a. (a.number < 10 ^ 8) × (to_le_bytes w64 a.word ≡ eight_digits a.number) };
}

// Two digits as the bytes of a word, the first of them the lowest.
#[inline(always)]
fn pair_of(number: u32) -> u64
    requires { number < 100 }
    ensures { result ≡ (48 + number / 10) + 256 * (48 + number % 10) }
{
    let at = 2 * number as usize;
    u64::from(u16::from_le_bytes([PAIRS[at], PAIRS[at + 1]]))
}

// The digits as the bytes of a word, the first of them the lowest.
#[inline(always)]
fn word_of(number: u32) -> u64
    requires { number < 10 ^ 8 }
    ensures { to_le_bytes w64 result ≡ eight_digits number }
{
    let high = number / 10_000;
    let low = number % 10_000;
    pair_of(high / 100)
        + 65_536 * pair_of(high % 100)
        + 4_294_967_296 * pair_of(low / 100)
        + 281_474_976_710_656 * pair_of(low % 100)
}

// The bytes of a word from one on.
#[inline(always)]
fn bytes_from(word: u64, from: usize) -> [u8; COUNT]
    requires { from < 8 }
    ensures { take (8 - from) result ≡ drop from (to_le_bytes w64 word) }
{
    (word >> (8 * from)).to_le_bytes()
}

// The bytes of a word from one on, with a point instead of that one.
#[inline(always)]
fn bytes_from_point(word: u64, at: usize) -> [u8; COUNT]
    requires { at < 8 }
    ensures { take (8 - at) result ≡ point ∷ drop (at + 1) (to_le_bytes w64 word) }
{
    ((word >> (8 * at)) / 256 * 256 + POINT).to_le_bytes()
}

// How many of the digits are leading zeros, not counting the last digit.
#[inline(always)]
fn leading_zeros_of(number: u32) -> u32
    requires { number < 10 ^ 8 }
    ensures { StartsWithZeros (eight_digits number) result }
{
    u32::from(number < 10_000_000)
        + u32::from(number < 1_000_000)
        + u32::from(number < 100_000)
        + u32::from(number < 10_000)
        + u32::from(number < 1_000)
        + u32::from(number < 100)
        + u32::from(number < 10)
}

// How many of the digits are trailing zeros.
#[inline(always)]
fn trailing_zeros_of(number: u32, word: u64) -> u32
    requires number { number < 10 ^ 8 }
    requires word { to_le_bytes w64 word ≡ eight_digits number }
    ensures { EndsInZeros (eight_digits number) result }
{
    (word - ZEROS).leading_zeros() / 8
}

// How many bytes a point and this many digits take, or none if there are no digits.
#[inline(always)]
fn with_point(count: usize) -> usize
    requires { count < 8 }
    ensures { result ≡ (if count == 0 then 0 else count + 1) }
{
    count + usize::from(count > 0)
}

impl EightDigits {
    /// The digits of a number below a hundred million.
    #[inline(always)]
    pub fn of(number: u32) -> EightDigits
        requires { number < 10 ^ 8 }
        ensures { result ≡ eight_digits number }
    {
        EightDigits {
            number,
            word: word_of(number),
        }
    }

    /// How many of them are leading zeros, not counting the last digit.
    #[inline(always)]
    pub fn leading_zeros(&self) -> usize
        ensures { StartsWithZeros self.now result }
    {
        leading_zeros_of(self.number) as usize
    }

    /// How many of them are trailing zeros.
    #[inline(always)]
    pub fn trailing_zeros(&self) -> usize
        ensures { EndsInZeros self.now result }
    {
        trailing_zeros_of(self.number, self.word) as usize
    }

    /// Appends some of the digits, from one on.
    #[inline(always)]
    pub fn push_part(&self, text: &mut TextBuffer, from: usize, count: usize) -> Result<(), Memory>
        requires from { from < 8 }
        requires within { from + count ≤ 8 }
        ensures { OnOk result (text.new.items ≡ text.old.items ++ take count (drop from self.now)) }
    {
        text.push_first(&bytes_from(self.word, from), count)
    }

    /// Appends a point and some of the digits, from the one after an index on, or nothing if no digit is wanted.
    #[inline(always)]
    pub fn push_fraction(
        &self,
        text: &mut TextBuffer,
        at: usize,
        count: usize,
    ) -> Result<(), Memory>
        requires { at + count < 8 }
        ensures { OnOk result (text.new.items ≡ text.old.items ++ (if count == 0 then [] else point ∷ take count
            (drop (at + 1) self.now))) }
    {
        text.push_first(&bytes_from_point(self.word, at), with_point(count))
    }
}
