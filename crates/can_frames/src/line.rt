//! The words of a log line.
ghost use Rattle.std.specs.Prelude.{◌≡◌, ◌≤◌, ◌∷◌, ◌++◌, true, false, not, length, take, drop, [], option_map, IfSome, Some, None};
ghost use Rattle.std.specs.Prelude.{if◌then◌else◌};
ghost use Rattle.std.specs.List.{prefix_len, list_any};
ghost use Rattle.dbc_values.specs.Lexical.{space};
ghost use Rattle.can_frames.specs.LogLines.{is_log_blank, first_word, after_first_word, is_stamp, is_seconds_end, is_fraction_end};
ghost use Rattle.can_frames.specs.LogLines.{frame_word, body_of};

use dbc_values::digits_len;
use std::simd::prelude::*;

/// The line without one final CR.
pub fn body_of(line: &[u8]) -> &[u8]
    ensures { result.now ≡ body_of line.now }
{
    match line {
        [body @ .., b'\r'] => body,
        _ => line,
    }
}

fn is_log_blank(b: u8) -> bool
    ensures { result ≡ is_log_blank b }
{
    b == b' ' || b == b'\t'
}

// How many bytes are before the first blank, byte by byte.
#[inline(always)]
fn short_word_len(bytes: &[u8]) -> usize
    ensures value { result ≡ prefix_len (λ b. not (is_log_blank b)) bytes.now }
    ensures in_range { result ≤ length bytes.now }
{
    bytes.iter().take_while(|b| !is_log_blank(**b)).count()
}

// How many of sixteen bytes are before the first blank.
#[inline(always)]
fn run_len(bytes: &[u8]) -> usize
    requires { length bytes.now ≡ 16 }
    ensures { result ≡ prefix_len (λ b. not (is_log_blank b)) bytes.now }
{
    let run = u8x16::from_slice(bytes);
    let blanks = run.simd_eq(u8x16::splat(b' ')) | run.simd_eq(u8x16::splat(b'\t'));
    let mask = blanks.to_bitmask();
    if mask == 0 {
        16
    } else {
        mask.trailing_zeros() as usize
    }
}

// How many bytes are before the first blank, sixteen at a time.
#[inline(always)]
fn word_len(bytes: &[u8]) -> usize
    ensures value { result ≡ prefix_len (λ b. not (is_log_blank b)) bytes.now }
    ensures in_range { result ≤ length bytes.now }
{
    let mut from = 0;
    while let Some(run) = bytes[from..].first_chunk::<16>() {
        let len = run_len(run);
        if len < 16 {
            return from + len;
        }
        from += 16;
    }
    from + short_word_len(&bytes[from..])
}

// How many blanks are at the front.
#[inline(always)]
fn blanks_len(bytes: &[u8]) -> usize
    ensures value { result ≡ prefix_len is_log_blank bytes.now }
    ensures in_range { result ≤ length bytes.now }
{
    bytes.iter().take_while(|b| is_log_blank(**b)).count()
}

/// The first word, and what follows it and the blanks after it.
#[inline(always)]
pub fn split_word(bytes: &[u8]) -> (&[u8], &[u8])
    ensures word { result.0.now ≡ first_word bytes.now }
    ensures after { result.1.now ≡ after_first_word bytes.now }
{
    let (word, rest) = bytes.split_at(word_len(bytes));
    let (_, after) = rest.split_at(blanks_len(rest));
    (word, after)
}

fn is_fraction_end(bytes: &[u8]) -> bool
    ensures { result ≡ is_fraction_end bytes.now }
{
    match bytes {
        [b'.', rest @ ..] => {
            let digits = digits_len(rest);
            digits >= 1 && digits <= 9 && &rest[digits..] == b")".as_slice()
        }
        _ => false,
    }
}

fn is_seconds_end(bytes: &[u8]) -> bool
    ensures { result ≡ is_seconds_end bytes.now }
{
    let digits = digits_len(bytes);
    digits > 0 && is_fraction_end(&bytes[digits..])
}

#[tactic(auto, unfolding(crate::specs::LogLines::is_stamp))]
fn is_stamp(word: &[u8]) -> bool
    ensures { result ≡ is_stamp word.now }
{
    match word {
        [b'(', rest @ ..] => is_seconds_end(rest),
        _ => false,
    }
}

#[inline(always)]
fn begins_with_blank(bytes: &[u8]) -> bool
    ensures { result ≡ list_any is_log_blank (take 1 bytes.now) }
{
    match bytes {
        [b, ..] => is_log_blank(*b),
        [] => false,
    }
}

// Whether the bytes are a stamp and a blank, with the stamp in its usual form: ten digits of seconds, and six of a fraction. Each
// byte is compared with its least and its greatest value, sixteen at a time, and some of them twice.
#[inline(always)]
fn is_usual_stamp(bytes: &[u8]) -> bool
    requires { length bytes.now ≡ 20 }
    ensures stamp { result ≡ true → is_stamp (take 19 bytes.now) ≡ true }
    ensures blank { result ≡ true → drop 19 bytes.now ≡ space ∷ [] }
{
    let front = u8x16::from_slice(bytes);
    let back = u8x16::from_slice(&bytes[4..]);
    let front_near = front.simd_clamp(
        u8x16::from_array(*b"(0000000000.0000"),
        u8x16::from_array(*b"(9999999999.9999"),
    );
    let back_near = back.simd_clamp(
        u8x16::from_array(*b"0000000.000000) "),
        u8x16::from_array(*b"9999999.999999) "),
    );
    let others = front_near.simd_ne(front) | back_near.simd_ne(back);
    others.to_bitmask() == 0
}

// What is after the stamp and one blank, if the stamp has its usual form.
#[inline(always)]
fn after_usual_stamp(body: &[u8]) -> Option<&[u8]>
    ensures stamp { IfSome result (λ after. is_stamp (first_word body.now) ≡ true) }
    ensures after { IfSome result (λ after. after.now ≡ after_first_word body.now) }
{
    let (stamp, after) = body.split_first_chunk::<20>()?;
    if !is_usual_stamp(stamp) || begins_with_blank(after) {
        return None;
    }
    Some(after)
}

// The same after any stamp.
#[inline(never)]
fn after_any_stamp(body: &[u8]) -> Option<&[u8]>
    ensures { option_map (λ after. after.now) result ≡ (if is_stamp (first_word body.now) then Some (after_first_word body.now)
        else None) }
{
    let (stamp, after) = split_word(body);
    if is_stamp(stamp) { Some(after) } else { None }
}

// What is after the stamp and the blanks that follow it. `None` if the line does not begin with a stamp.
#[inline(always)]
fn after_stamp(body: &[u8]) -> Option<&[u8]>
    ensures { option_map (λ after. after.now) result ≡ (if is_stamp (first_word body.now) then Some (after_first_word body.now)
        else None) }
{
    match after_usual_stamp(body) {
        Some(after) => Some(after),
        None => after_any_stamp(body),
    }
}

/// The first word.
pub(crate) fn first_word(bytes: &[u8]) -> &[u8]
    ensures { result.now ≡ first_word bytes.now }
{
    let (word, _) = split_word(bytes);
    word
}

/// What the word of the frame begins, which is empty if the line ends after its interface. `None` if the line does not begin with a
/// stamp and an interface.
#[inline(always)]
#[tactic(auto, unfolding(crate::specs::LogLines::frame_word))]
pub(crate) fn after_interface(body: &[u8]) -> Option<&[u8]>
    ensures { option_map (λ rest. first_word rest.now) result ≡ frame_word body.now }
{
    let interface_on = after_stamp(body)?;
    let (interface, rest) = split_word(interface_on);
    if interface.is_empty() {
        return None;
    }
    Some(rest)
}
