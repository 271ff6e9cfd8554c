//! Multiplexer indicators of signals.
ghost use Rattle.std.specs.Prelude.{◌≡◌, ◌-◌, ◌^◌, ◌&&◌, ◌++◌, Some, None, Ok, Err, codes, option_map, if◌then◌else◌};
ghost use Rattle.std.specs.Str.{bytes_eq};
ghost use Rattle.dbc_values.specs.Lexical.{is_digits};
ghost use Rattle.dbc_records.specs.declared.tag.Tag.TheVariants as tags;
ghost use Rattle.dbc_reader.specs.Classes.{whole_of, front, muxed_of, tag_of};

use dbc_records::Tag;
use dbc_tokens::Cause;
use dbc_values::{Whole, are_digits, whole_of};

fn is_digits(bytes: &[u8]) -> bool
    ensures { result ≡ is_digits bytes.now }
{
    !bytes.is_empty() && are_digits(bytes)
}

// The value of a multiplexer indicator.
#[tactic(auto, unfolding(crate::specs::Classes::whole_of))]
fn count(digits: &[u8]) -> Result<u64, Cause>
    ensures { result ≡ whole_of 0 (2 ^ 64 - 1) digits.now }
{
    match whole_of(digits) {
        Some(Whole::Value(n)) => Ok(n),
        Some(Whole::TooLarge) => Err(Cause::Limit),
        Some(Whole::Fraction) | None => Err(Cause::Statement),
    }
}

// The digits before a last `M`.
#[tactic(auto, using(crate::proofs::Facts::Ends::ends_by_last))]
fn before_switch(bytes: &[u8]) -> Option<&[u8]>
    ensures { option_map (λ digits. digits.now) result ≡ (if is_digits (front bytes.now) && bytes_eq bytes.now (front bytes.now
        ++ codes "M") then Some (front bytes.now) else None) }
{
    match bytes {
        [digits @ .., last] => {
            if *last == b'M' && is_digits(digits) {
                Some(digits)
            } else {
                None
            }
        }
        [] => None,
    }
}

// What is after an `m`.
#[tactic(auto, unfolding(crate::specs::Classes::muxed_of))]
fn muxed(bytes: &[u8]) -> Result<Tag, Cause>
    ensures { result ≡ muxed_of bytes.now }
{
    if is_digits(bytes) {
        return match count(bytes) {
            Ok(n) => Ok(Tag::Muxed(n)),
            Err(cause) => Err(cause),
        };
    }
    match before_switch(bytes) {
        Some(digits) => match count(digits) {
            Ok(n) => Ok(Tag::Both(n)),
            Err(cause) => Err(cause),
        },
        None => Err(Cause::Statement),
    }
}

/// The multiplexer indicator that a token is: `M`, `m5` or `m5M`.
#[tactic(auto, unfolding(crate::specs::Classes::tag_of))]
pub fn tag(bytes: &[u8]) -> Result<Tag, Cause>
    ensures { result ≡ tag_of bytes.now }
{
    match bytes {
        b"M" => Ok(Tag::Switch),
        [b'm', following @ ..] => muxed(following),
        _ => Err(Cause::Statement),
    }
}
