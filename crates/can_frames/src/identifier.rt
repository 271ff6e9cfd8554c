//! Identifiers.
ghost use Rattle.std.specs.Prelude.{◌≡◌, ◌*◌, [], ◌∷◌, IfSome, option_map};
ghost use Rattle.std.specs.Result.{result_ok};
ghost use Rattle.hex.specs.Hex.{decode_of};
ghost use Rattle.can_frames.specs.Frames.{identifier_of, of_three_digits, of_eight_digits};
ghost use Rattle.can_frames.specs.inner.Seen.{identifier_view, IsIdentifier};

use crate::pairs::{bytes_of_eight, bytes_of_pairs};

/// An identifier as its digits spell it.
#[derive(Clone, Copy)]
pub(crate) struct Identifier {
    /// Whether it is extended (29-bit) rather than standard (11-bit).
    pub extended: bool,
    /// Whether it marks an error frame.
    pub marks_error: bool,
    /// The identifier alone.
    pub number: u32,
}

#[tactic(auto, unfolding(crate::specs::Frames::of_three_digits))]
#[inline(always)]
fn of_three_digits(a: u8, b: u8, c: u8) -> Option<Identifier>
    ensures value { option_map identifier_view result ≡ of_three_digits (a ∷ b ∷ c ∷ []) }
    ensures valid { IfSome result IsIdentifier }
{
    let bytes = bytes_of_pairs::<4, 2>(&[b'0', a, b, c])?;
    let number = u16::from_be_bytes(bytes);
    if number > 2047 {
        return None;
    }
    Some(Identifier {
        extended: false,
        marks_error: false,
        number: u32::from(number),
    })
}

#[tactic(auto, unfolding(crate::specs::Frames::of_eight_digits))]
#[inline(always)]
fn of_eight_digits(digits: &[u8; 8]) -> Option<Identifier>
    ensures value { option_map identifier_view result ≡ of_eight_digits digits.now }
    ensures valid { IfSome result IsIdentifier }
{
    let bytes = bytes_of_eight(digits)?;
    let word = u32::from_be_bytes(bytes);
    Some(Identifier {
        extended: true,
        marks_error: word / (1 << 29) % 2 == 1,
        number: word % (1 << 29),
    })
}

/// The identifier that these digits spell: three of them a standard (11-bit) one, eight of them an extended (29-bit) one.
#[tactic(auto, unfolding(crate::specs::Frames::identifier_of))]
#[inline(always)]
pub(crate) fn identifier_of(digits: &[u8]) -> Option<Identifier>
    ensures value { option_map identifier_view result ≡ identifier_of digits.now }
    ensures valid { IfSome result IsIdentifier }
{
    match digits {
        [a, b, c] => of_three_digits(*a, *b, *c),
        [a, b, c, d, e, f, g, h] => of_eight_digits(&[*a, *b, *c, *d, *e, *f, *g, *h]),
        _ => None,
    }
}
