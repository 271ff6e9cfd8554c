//! The length of the gap or the token at the front of a text.
ghost use Rattle.std.specs.Prelude.{◌≡◌, ◌-◌, ◌<◌, ◌≤◌, false, not, ◌||◌, ◌==◌, length, slice_index, take, IfSome};
ghost use Rattle.std.specs.List.{prefix_len};
ghost use Rattle.dbc_values.specs.Lexical.{backslash, is_blank, is_letter, is_word_byte, is_mark, is_digit};
ghost use Rattle.dbc_tokens.specs.inner.Scanner.{gap_len, text_len, mantissa_len, sign_len, exponent_len, number_len, token_at};
ghost use Rattle.dbc_tokens.specs.inner.Scanner.{line_text_len, line_text_at, plain_number_len, plain_token_at};
ghost use Rattle.dbc_tokens.specs.Tokens.{line_feeds};

use crate::token::Kind;
use dbc_values::{digits_len, is_digit, is_letter, is_mark, is_word_byte};
use memchr::{memchr, memchr2};

fn is_blank(b: u8) -> bool
    ensures { result ≡ is_blank b }
{
    b <= b' ' && matches!(b, b' ' | b'\t' | b'\r' | b'\n')
}

fn word_len(bytes: &[u8]) -> usize
    ensures value { result ≡ prefix_len is_word_byte bytes.now }
    ensures in_range { result ≤ length bytes.now }
{
    bytes.iter().take_while(|b| is_word_byte(**b)).count()
}

// How many bytes of digits with a point are at the front.
fn mantissa_len(bytes: &[u8]) -> usize
    ensures value { result ≡ mantissa_len bytes.now }
    ensures in_range { result ≤ length bytes.now }
{
    let whole = digits_len(bytes);
    match &bytes[whole..] {
        [b'.', rest @ ..] => {
            let digits = whole + digits_len(rest);
            if digits == 0 { 0 } else { 1 + digits }
        }
        _ => whole,
    }
}

fn sign_len(bytes: &[u8]) -> usize
    ensures value { result ≡ sign_len bytes.now }
    ensures in_range { result ≤ length bytes.now }
{
    match bytes {
        [b'+' | b'-', ..] => 1,
        _ => 0,
    }
}

fn exponent_len(bytes: &[u8]) -> usize
    ensures value { result ≡ exponent_len bytes.now }
    ensures in_range { result ≤ length bytes.now }
{
    match bytes {
        [b'E' | b'e', rest @ ..] => {
            let sign = sign_len(rest);
            let digits = digits_len(&rest[sign..]);
            if digits == 0 { 0 } else { 1 + (sign + digits) }
        }
        _ => 0,
    }
}

fn number_len(bytes: &[u8]) -> usize
    ensures value { result ≡ number_len bytes.now }
    ensures in_range { result ≤ length bytes.now }
{
    let mantissa = mantissa_len(bytes);
    if mantissa == 0 {
        0
    } else {
        mantissa + exponent_len(&bytes[mantissa..])
    }
}

// How many bytes the number at the front has, or 0 if none begins or it may have an exponent.
fn plain_number_len(bytes: &[u8]) -> usize
    ensures value { result ≡ plain_number_len bytes.now }
    ensures in_range { result ≤ length bytes.now }
{
    let mantissa = mantissa_len(bytes);
    match &bytes[mantissa..] {
        [b'E' | b'e', ..] => 0,
        _ => mantissa,
    }
}

// Whether a quote at this position after the opening one closes the string: no backslash is directly before it.
fn closes(bytes: &[u8], end: usize) -> bool
    requires { end ≤ length bytes.now }
    ensures { result ≡ (end == 0 || not (slice_index bytes.now (end - 1) == backslash)) }
{
    end == 0 || bytes[end - 1] != b'\\'
}

// How many bytes are before the first quote that closes.
fn text_len(bytes: &[u8]) -> Option<usize>
    ensures value { result ≡ text_len false bytes.now }
    ensures in_range { IfSome result (λ n. n < length bytes.now) }
{
    let mut at = 0;
    while let Some(n) = memchr(b'"', &bytes[at..]) {
        let end = at + n;
        if closes(bytes, end) {
            return Some(end);
        }
        at = end + 1;
    }
    None
}

// How many bytes are before the first quote, if that closes the string and no LF is before it.
#[inline(never)]
fn line_text_len(bytes: &[u8]) -> Option<usize>
    ensures value { result ≡ line_text_len bytes.now }
    ensures in_range { IfSome result (λ n. n < length bytes.now) }
{
    let end = memchr2(b'"', b'\n', bytes)?;
    if bytes[end] == b'"' && closes(bytes, end) {
        Some(end)
    } else {
        None
    }
}

/// How many blanks are at the front, and how many LF are among them.
#[inline(always)]
pub(crate) fn leading_blanks(bytes: &[u8]) -> (usize, usize)
    ensures count { result.0 ≡ prefix_len is_blank bytes.now }
    ensures line_feeds { result.1 ≡ line_feeds (take result.0 bytes.now) }
    ensures in_range { (result.1 ≤ result.0) × (result.0 ≤ length bytes.now) }
{
    let mut count = 0;
    let mut feeds = 0;
    while count < bytes.len() && is_blank(bytes[count]) {
        if bytes[count] == b'\n' {
            feeds += 1;
        }
        count += 1;
    }
    (count, feeds)
}

/// How many bytes of blanks and comments are at the front.
pub fn gap_len(bytes: &[u8]) -> usize
    ensures value { result ≡ gap_len false bytes.now }
    ensures in_range { result ≤ length bytes.now }
{
    let mut at = 0;
    while at < bytes.len() {
        if is_blank(bytes[at]) {
            at += 1;
        } else if bytes[at] == b'/' && at + 1 < bytes.len() && bytes[at + 1] == b'/' {
            match memchr(b'\n', &bytes[at..]) {
                Some(n) => at += n,
                None => return bytes.len(),
            }
        } else {
            return at;
        }
    }
    at
}

/// The kind of the token at the front and how many bytes it has, or `None` if no token begins.
#[tactic(auto, unfolding(crate::specs::inner::Scanner::token_at))]
#[inline(always)]
pub(crate) fn token_at(bytes: &[u8]) -> Option<(Kind, usize)>
    ensures value { result ≡ token_at bytes.now }
    ensures in_range { IfSome result (λ t. (0 < t.1) × (t.1 ≤ length bytes.now)) }
{
    match bytes {
        [] => None,
        [b'"', rest @ ..] => match text_len(rest) {
            Some(n) => Some((Kind::Text, 2 + n)),
            None => None,
        },
        [first, rest @ ..] if is_letter(*first) => Some((Kind::Word, 1 + word_len(rest))),
        [first, ..] if is_mark(*first) => Some((Kind::Mark, 1)),
        _ => match number_len(bytes) {
            0 => None,
            n => Some((Kind::Number, n)),
        },
    }
}

/// The kind of the token at the front and how many bytes it has, if it is a word, a mark, or a number that begins with a digit
/// and has no exponent.
#[tactic(auto, unfolding(crate::specs::inner::Scanner::plain_token_at))]
#[inline(always)]
pub(crate) fn plain_token_at(bytes: &[u8]) -> Option<(Kind, usize)>
    ensures value { result ≡ plain_token_at bytes.now }
    ensures in_range { IfSome result (λ t. t.1 ≤ length bytes.now) }
{
    match bytes {
        [mark, ..] if is_mark(*mark) => Some((Kind::Mark, 1)),
        [digit, ..] if is_digit(*digit) => match plain_number_len(bytes) {
            0 => None,
            n => Some((Kind::Number, n)),
        },
        [letter, rest @ ..] if is_letter(*letter) => Some((Kind::Word, 1 + word_len(rest))),
        _ => None,
    }
}

/// The kind of the string at the front and how many bytes it has, if it ends at its first quote and in the line in which it begins.
#[tactic(auto, unfolding(crate::specs::inner::Scanner::line_text_at))]
#[inline(always)]
pub(crate) fn line_text_at(bytes: &[u8]) -> Option<(Kind, usize)>
    ensures value { result ≡ line_text_at bytes.now }
    ensures in_range { IfSome result (λ t. t.1 ≤ length bytes.now) }
{
    match bytes {
        [b'"', text @ ..] => match line_text_len(text) {
            Some(n) => Some((Kind::Text, 2 + n)),
            None => None,
        },
        _ => None,
    }
}
