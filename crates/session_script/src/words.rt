//! The words of a script line.
ghost use Rattle.std.specs.Prelude.{◌≡◌, ◌≤◌, ◌^◌, IsTrue, length, min, option_map};
ghost use Rattle.std.specs.List.{list_all};
ghost use Rattle.dbc_values.specs.Lexical.{is_digit, is_digits};
ghost use Rattle.std.specs.Str.Parse.{digits_value};
ghost use Rattle.can_frames.specs.Frames.{following_first};
ghost use Rattle.session_script.specs.Commands.{number_and_rest};
ghost use Rattle.session_script.specs.Words.{word_len, word_of, rest_of, number_of};

use dbc_values::are_digits;

// How many bytes are before the first blank.
fn word_len(text: &[u8]) -> usize
    ensures value { result ≡ word_len text.now }
    ensures in_range { result ≤ length text.now }
{
    text.iter().take_while(|b| **b != b' ').count()
}

/// The first word: what is before the first blank.
pub(crate) fn word_of(text: &[u8]) -> &[u8]
    ensures { result.now ≡ word_of text.now }
{
    let (word, _) = text.split_at(word_len(text));
    word
}

fn following_first(text: &[u8]) -> Option<&[u8]>
    ensures { option_map (λ rest. rest.now) result ≡ following_first text.now }
{
    match text {
        [_, rest @ ..] => Some(rest),
        [] => None,
    }
}

/// All that is after the first blank, if there is one.
pub(crate) fn rest_of(text: &[u8]) -> Option<&[u8]>
    ensures { option_map (λ rest. rest.now) result ≡ rest_of text.now }
{
    let (_, after) = text.split_at(word_len(text));
    following_first(after)
}

// Greater than any number that a script can write.
const SATURATED: u64 = 4_294_967_296;

// The value of the digits, or `SATURATED` if it is greater.
fn saturated_value(digits: &[u8]) -> u64
    requires { IsTrue (list_all is_digit digits.now) }
    ensures { result ≡ min (digits_value 10 digits.now) (2 ^ 32) }
{
    let mut value: u64 = 0;
    for digit in digits {
        value = (value * 10 + u64::from(*digit - b'0')).min(SATURATED);
    }
    value
}

fn is_digits(word: &[u8]) -> bool
    ensures { result ≡ is_digits word.now }
{
    !word.is_empty() && are_digits(word)
}

/// The number that digits alone spell, up to the greatest 32-bit number.
#[tactic(auto, unfolding(crate::specs::Words::number_of))]
pub(crate) fn number_of(word: &[u8]) -> Option<u32>
    ensures { result ≡ number_of word.now }
{
    if is_digits(word) {
        u32::try_from(saturated_value(word)).ok()
    } else {
        None
    }
}

/// A number, and all that is after its blank.
pub(crate) fn number_and_rest(text: &[u8]) -> Option<(u32, &[u8])>
    ensures { option_map (λ one. (one.0, one.1.now)) result ≡ number_and_rest text.now }
{
    let number = number_of(word_of(text))?;
    let rest = rest_of(text)?;
    Some((number, rest))
}
