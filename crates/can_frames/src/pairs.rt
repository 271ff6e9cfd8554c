//! Hexadecimal digits: pairs by a table of their values, sixteen at once as lanes of a vector.
ghost use Rattle.std.specs.Prelude.{◌≡◌, ℕ, ◌*◌, ◌<◌, ◌==◌, Some, None, Ok, IfSome, length, map, bit_and, if◌then◌else◌};
ghost use Rattle.std.specs.Result.{result_ok};
ghost use Rattle.hex.specs.Hex.{decode_of, hex_digit_value, pair_value};

use std::simd::prelude::*;

// The value of each byte as a hexadecimal digit, or 255, as `hex` reads it.
static VALUES: [u8; 256] = [
    255, 255, 255, 255, 255, 255, 255, 255, 255, 255, 255, 255, 255, 255, 255, 255, 255, 255, 255,
    255, 255, 255, 255, 255, 255, 255, 255, 255, 255, 255, 255, 255, 255, 255, 255, 255, 255, 255,
    255, 255, 255, 255, 255, 255, 255, 255, 255, 255, 0, 1, 2, 3, 4, 5, 6, 7, 8, 9, 255, 255, 255,
    255, 255, 255, 255, 10, 11, 12, 13, 14, 15, 255, 255, 255, 255, 255, 255, 255, 255, 255, 255,
    255, 255, 255, 255, 255, 255, 255, 255, 255, 255, 255, 255, 255, 255, 255, 255, 10, 11, 12, 13,
    14, 15, 255, 255, 255, 255, 255, 255, 255, 255, 255, 255, 255, 255, 255, 255, 255, 255, 255,
    255, 255, 255, 255, 255, 255, 255, 255, 255, 255, 255, 255, 255, 255, 255, 255, 255, 255, 255,
    255, 255, 255, 255, 255, 255, 255, 255, 255, 255, 255, 255, 255, 255, 255, 255, 255, 255, 255,
    255, 255, 255, 255, 255, 255, 255, 255, 255, 255, 255, 255, 255, 255, 255, 255, 255, 255, 255,
    255, 255, 255, 255, 255, 255, 255, 255, 255, 255, 255, 255, 255, 255, 255, 255, 255, 255, 255,
    255, 255, 255, 255, 255, 255, 255, 255, 255, 255, 255, 255, 255, 255, 255, 255, 255, 255, 255,
    255, 255, 255, 255, 255, 255, 255, 255, 255, 255, 255, 255, 255, 255, 255, 255, 255, 255, 255,
    255, 255, 255, 255, 255, 255, 255, 255, 255, 255, 255, 255, 255, 255, 255, 255, 255, 255, 255,
    255, 255, 255,
];

// The value of a digit.
#[inline(always)]
fn digit_value(digit: u8) -> Option<u8>
    ensures value { result ≡ hex_digit_value digit }
    ensures small { IfSome result (λ value. value < 16) }
{
    let value = VALUES[digit as usize];
    if value < 16 { Some(value) } else { None }
}

// The byte that two digits spell.
#[inline(always)]
fn pair_of(high: u8, low: u8) -> Option<u8>
    ensures { (index : ℕ) → result ≡ result_ok (pair_value high low index) }
{
    let Some(above) = digit_value(high) else {
        return None;
    };
    let Some(below) = digit_value(low) else {
        return None;
    };
    Some(above * 16 + below)
}

/// The bytes that pairs of digits spell.
#[inline(always)]
pub(crate) fn bytes_of_pairs<const D: usize, const N: usize>(digits: &[u8; D]) -> Option<[u8; N]>
    requires { D ≡ 2 * N }
    ensures { result ≡ result_ok (decode_of digits.now) }
{
    let mut out = [0u8; N];
    'bytes: for i in 0..N {
        let Some(byte) = pair_of(digits[2 * i], digits[2 * i + 1]) else {
            return None;
        };
        out[i] = byte;
    }
    Some(out)
}

// The value of each of sixteen digits. For any other byte it is a number with some of the four high bits set. The method is Geoff
// Langdale's and Wojciech Muła's: `0` to `9` are moved to the top of the bytes' range and saturate downwards, letters lose their
// case and saturate upwards, and of the two the smaller is the digit's value.
#[inline(always)]
fn values_of(digits: &[u8]) -> u8x16
    requires { length digits.now ≡ 16 }
    ensures { map (λ value. if bit_and value 240 == 0 then Some value else None) result ≡ map hex_digit_value digits.now }
{
    let text = u8x16::from_slice(digits);
    let decimal = (text + u8x16::splat(0xff - b'9')).saturating_sub(u8x16::splat(6))
        - u8x16::splat(0xf0);
    let letter = ((text & u8x16::splat(0xdf)) - u8x16::splat(b'A')).saturating_add(u8x16::splat(
        10,
    ));
    decimal.simd_min(letter)
}

/// The bytes that sixteen digits spell. It reads all of them at once.
#[inline(always)]
pub(crate) fn bytes_of_sixteen(digits: &[u8; 16]) -> Option<[u8; 8]>
    ensures { result ≡ result_ok (decode_of digits.now) }
{
    let values = values_of(digits);
    let high_bits = values & u8x16::splat(0xf0);
    if high_bits.simd_ne(u8x16::splat(0)).to_bitmask() != 0 {
        return None;
    }
    let high = values.swizzle::<8>([0, 2, 4, 6, 8, 10, 12, 14]);
    let low = values.swizzle::<8>([1, 3, 5, 7, 9, 11, 13, 15]);
    Some((high * u8x8::splat(16) + low).to_array())
}

/// The bytes that eight digits spell. Zeros after them make sixteen.
#[inline(always)]
pub(crate) fn bytes_of_eight(digits: &[u8; 8]) -> Option<[u8; 4]>
    ensures { result ≡ result_ok (decode_of digits.now) }
{
    let [a, b, c, d, e, f, g, h] = *digits;
    let z = b'0';
    let Some(eight) = bytes_of_sixteen(&[a, b, c, d, e, f, g, h, z, z, z, z, z, z, z, z]) else {
        return None;
    };
    Some([eight[0], eight[1], eight[2], eight[3]])
}
