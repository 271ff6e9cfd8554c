//! Where reading resumes after a fault.
ghost use Rattle.std.specs.Prelude.{◌<◌, length, IfSome};

use crate::grammar::Beginning;
use crate::words::is_keyword;
use dbc_values::{is_word_byte, same};
use memchr::memchr;

/// A later line of a text, whose first word may begin a statement.
#[derive(Clone, Copy)]
pub(crate) struct Resumption<'t> {
    /// How many LF were skipped.
    pub lines: u64,
    /// What the rest begins with.
    pub beginning: Beginning,
    /// The bytes from there on.
    pub rest: &'t [u8],
}

// The word at the front, which may be empty.
fn first_word(bytes: &[u8]) -> &[u8] {
    let size = bytes.iter().take_while(|b| is_word_byte(**b)).count();
    bytes.split_at(size).0
}

// What a line begins with, if that may be a statement. Signals alone may be indented, as the words of `NS_` are.
fn beginning_of(line: &[u8]) -> Option<Beginning> {
    let word = first_word(line);
    if same(first_word(line.trim_ascii_start()), b"SG_") {
        Some(Beginning::Signals)
    } else if is_keyword(word) {
        Some(Beginning::Text)
    } else {
        None
    }
}

// The bytes after the first line.
fn next_line(bytes: &[u8]) -> Option<&[u8]>
    ensures { IfSome result (λ rest. length rest.now < length bytes.now) }
{
    match memchr(b'\n', bytes) {
        Some(n) => Some(bytes.split_at(n + 1).1),
        None => None,
    }
}

/// The next line whose first word may begin a statement.
pub(crate) fn next_statement(bytes: &[u8]) -> Option<Resumption<'_>> {
    let mut left = bytes;
    let mut lines = 0u64;
    'lines: while let Some(rest) = next_line(left) {
        lines = lines.saturating_add(1);
        if let Some(beginning) = beginning_of(rest) {
            return Some(Resumption {
                lines,
                beginning,
                rest,
            });
        }
        left = rest;
    }
    None
}
