//! The words of a log line.
ghost use Rattle.std.specs.Prelude.{◌≡◌, ◌≤◌, ◌-◌, length, take, drop};
ghost use Rattle.can_json_lines.specs.Lines.{has_leading_zero, without_leading_zeros, time_of, interface_of, rest_of};

use can_frames::split_word;

/// The words of a line with a frame, without the frame itself.
#[derive(Drop)]
pub struct Words<'l> {
    /// The digits of the stamp, without leading zeros.
    pub time: &'l [u8],
    /// The interface.
    pub interface: &'l [u8],
    /// What follows the frame.
    pub rest: &'l [u8],
}

// Whether there is a leading zero followed by a digit.
fn has_leading_zero(digits: &[u8]) -> bool
    ensures { result ≡ has_leading_zero digits.now }
{
    match digits {
        [b'0', next, ..] => next.is_ascii_digit(),
        _ => false,
    }
}

// Digits without leading zeros that a digit follows.
fn without_leading_zeros(digits: &[u8]) -> &[u8]
    ensures { result.now ≡ without_leading_zeros digits.now }
{
    let mut rest = digits;
    while has_leading_zero(rest) {
        rest = &rest[1..];
    }
    rest
}

// What is between the first and the last byte.
fn inner(word: &[u8]) -> &[u8]
    ensures { result.now ≡ take (length word.now - 2) (drop 1 word.now) }
{
    match word {
        [_, inner @ .., _] => inner,
        _ => &[],
    }
}

/// The words of a line.
#[tactic(auto, unfolding(crate::specs::Lines::time_of, crate::specs::Lines::interface_of, crate::specs::Lines::rest_of))]
pub fn words_of(body: &[u8]) -> Words<'_>
    ensures time { result.time.now ≡ time_of body.now }
    ensures interface { result.interface.now ≡ interface_of body.now }
    ensures rest { result.rest.now ≡ rest_of body.now }
{
    let (stamp, after_stamp) = split_word(body);
    let (interface, frame_on) = split_word(after_stamp);
    let (_, rest) = split_word(frame_on);
    Words {
        time: without_leading_zeros(inner(stamp)),
        interface,
        rest,
    }
}
