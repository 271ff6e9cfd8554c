//! The line of a fault, with a mark under its token.

use crate::location::FaultLocation;
use crate::words::{push_all, push_shown};
use dbc_tokens::Cause;
use dbc_values::Memory;
use memchr::{memchr, memrchr};

// The most bytes that are shown before the token, and from the token on.
const MAX_BYTES_BEFORE: usize = 60;

const MAX_BYTES_AFTER: usize = 60;

// The bytes of the last line.
fn last_line(bytes: &[u8]) -> &[u8] {
    match memrchr(b'\n', bytes) {
        Some(n) => bytes.split_at(n + 1).1,
        None => bytes,
    }
}

// The bytes of the first line.
fn first_line(bytes: &[u8]) -> &[u8] {
    match memchr(b'\n', bytes) {
        Some(n) => bytes.split_at(n).0,
        None => bytes,
    }
}

// Whether the byte continues a character of a text.
fn goes_on(b: u8) -> bool {
    (0x80..0xC0).contains(&b)
}

// Appends a blank to the text for each character, but keeps tabs.
fn push_blanks(text: &mut Vec<u8>, bytes: &[u8], utf8: bool) -> Result<(), Memory> {
    for b in bytes {
        match *b {
            b'\r' => (),
            b'\t' => text.push(b'\t')?,
            b if utf8 && goes_on(b) => (),
            _ => text.push(b' ')?,
        }
    }
    Ok(())
}

// Appends a mark to the text for each character of a token, and one if there is none.
fn push_mark(text: &mut Vec<u8>, token: &[u8], utf8: bool) -> Result<(), Memory> {
    text.push(b'^')?;
    if let [_, others @ ..] = token {
        for b in others {
            if *b != b'\r' && !(utf8 && goes_on(*b)) {
                text.push(b'~')?;
            }
        }
    }
    Ok(())
}

// The last bytes of these, at most this many.
fn last_of(bytes: &[u8], most: usize) -> &[u8] {
    bytes.split_at(bytes.len().saturating_sub(most)).1
}

// The first bytes of these, at most this many.
fn first_of(bytes: &[u8], most: usize) -> &[u8] {
    bytes.split_at(most.min(bytes.len())).0
}

/// Appends the line of a fault to the text, and a line with a mark under its token. Of a long line only the part near
/// the token is shown.
pub(crate) fn push_marked_line(
    text: &mut Vec<u8>,
    location: &FaultLocation<'_>,
) -> Result<(), Memory> {
    let line = last_line(location.before);
    let before = last_of(line, MAX_BYTES_BEFORE);
    let token = first_of(first_line(location.token), MAX_BYTES_AFTER);
    let line_after = first_line(location.following);
    let is_whole = token.len() == location.token.len();
    let following = if is_whole {
        first_of(line_after, MAX_BYTES_AFTER.saturating_sub(token.len()))
    } else {
        b"".as_slice()
    };
    let (left, right) = cuts(
        before.len() < line.len(),
        !is_whole || following.len() < line_after.len(),
    );
    push_all(text, &[left])?;
    push_shown(text, before)?;
    push_shown(text, token)?;
    push_shown(text, following)?;
    push_all(text, &[right, b"\n"])?;
    let utf8 = std::str::from_utf8(before).is_ok() && std::str::from_utf8(token).is_ok();
    push_blanks(text, left, false)?;
    push_blanks(text, before, utf8)?;
    push_mark(text, token, utf8)?;
    push_all(text, &[b"\n"])
}

// What is shown where a line is cut on its left and on its right.
fn cuts(left: bool, right: bool) -> (&'static [u8], &'static [u8]) {
    let dots = |cut: bool| if cut {
        b"...".as_slice()
    } else {
        b"".as_slice()
    };
    (dots(left), dots(right))
}
