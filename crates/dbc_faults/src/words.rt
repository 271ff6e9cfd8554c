//! Texts that are assembled.

use dbc_values::{Memory, is_name, is_word};
use itoa::Buffer;

/// Appends the pieces to the text.
pub(crate) fn push_all(text: &mut Vec<u8>, pieces: &[&[u8]]) -> Result<(), Memory> {
    for piece in pieces {
        text.extend_from_slice(piece)?;
    }
    Ok(())
}

/// Appends the number to the text, in decimal.
pub(crate) fn push_number(text: &mut Vec<u8>, number: u64) -> Result<(), Memory> {
    let mut digits = Buffer::new();
    text.extend_from_slice(digits.format(number).as_bytes())?;
    Ok(())
}

// The byte as it is shown: a control byte other than a tab becomes a `?`.
fn shown(b: u8) -> u8 {
    match b {
        b'\t' | b' '..=b'~' | 0x80.. => b,
        _ => b'?',
    }
}

/// Appends bytes of a database to the text as they are shown, except CR.
pub(crate) fn push_shown(text: &mut Vec<u8>, bytes: &[u8]) -> Result<(), Memory> {
    for b in bytes {
        if *b != b'\r' {
            text.push(shown(*b))?;
        }
    }
    Ok(())
}

/// Whether the bytes are a keyword: a word that is no name.
pub(crate) fn is_keyword(bytes: &[u8]) -> bool {
    is_word(bytes) && !is_name(bytes)
}
