//! What was found at the location of a fault, in words.

use crate::location::FaultLocation;
use crate::words::{is_keyword, push_all, push_shown};
use dbc_tokens::Cause;
use dbc_values::{Memory, is_letter};

// The most bytes of a token that are shown.
const MAX_TOKEN_SIZE: usize = 60;

// Appends a token to the text.
fn push_token(text: &mut Vec<u8>, token: &[u8]) -> Result<(), Memory> {
    let kind: &[u8] = match token {
        [b'"', ..] => b"the string ",
        _ if is_keyword(token) => b"the keyword ",
        [first, ..] if is_letter(*first) => b"the word ",
        [b'0'..=b'9' | b'.', ..] => b"the number ",
        _ => b"the mark ",
    };
    push_all(text, &[kind])?;
    if token.len() <= MAX_TOKEN_SIZE {
        return push_shown(text, token);
    }
    push_shown(text, token.split_at(MAX_TOKEN_SIZE).0)?;
    push_all(text, &[b"..."])
}

// Appends a byte at which no token begins to the text.
fn push_byte(text: &mut Vec<u8>, b: u8) -> Result<(), Memory> {
    match b {
        b'"' => push_all(text, &[b"a quote that is never closed"]),
        b'!'..=b'~' => push_all(text, &[b"'", &[b], b"', which begins no token"]),
        _ => {
            let hex = b"0123456789ABCDEF";
            let digits = [hex[usize::from(b / 16)], hex[usize::from(b % 16)]];
            push_all(text, &[b"the byte 0x", &digits, b", which begins no token"])
        }
    }
}

/// Appends what was found at the location of a fault to the text.
pub(crate) fn push_found(text: &mut Vec<u8>, location: &FaultLocation<'_>) -> Result<(), Memory> {
    match (location.fault.cause, location.following) {
        (Cause::Token, [b, ..]) => push_byte(text, *b),
        _ if location.token.is_empty() => push_all(text, &[b"the end of the file"]),
        _ => push_token(text, location.token),
    }
}
