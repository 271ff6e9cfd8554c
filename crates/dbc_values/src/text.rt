//! Texts: what is between the quotes of a string.
ghost use Rattle.std.specs.Prelude.{◌≡◌, ◌<◌, length, IfOk, OnErr, IsTrue, Some, None, if◌then◌else◌};
ghost use Rattle.dbc_values.specs.Lexical.{is_text};

use crate::list::{Checked, Copied};
use crate::memory::Memory;
use crate::stored::Stored;
use std::alloc::Global;
use std::marker::Model;

/// The bytes of a string, without an assumed encoding and with its backslashes as they are: each quote is directly after a
/// backslash, and the last byte is no backslash, so that quotes around them end where they should. Copies share the bytes
/// of a long one.
#[derive(Drop)]
pub struct Text {
    bytes: Stored,
}

impl Model for Text {
    ghost use Rattle.std.specs.Prelude.{ℕ, List, IsTrue};
    ghost use Rattle.dbc_values.specs.Lexical.{is_text};

    ghost Value = { List ℕ };

    ghost view = { λ text. text.bytes };

    ghost invariant = { λ text. IsTrue (is_text text.bytes) };
}

/// Whether the bytes may be between the quotes of a string.
#[tactic(auto, unfolding(crate::specs::Lexical::is_text))]
pub fn is_text(bytes: &[u8]) -> bool
    ensures { result ≡ is_text bytes.now }
{
    let mut after_backslash = false;
    for b in bytes {
        if *b == b'"' && !after_backslash {
            return false;
        }
        after_backslash = *b == b'\\';
    }
    !after_backslash
}

impl Text {
    /// The text of these bytes, or `None` if they can't be between quotes. A text of at most 22 bytes needs no allocation.
    pub fn new(alloc: Global, bytes: &[u8]) -> Result<Option<Text>, Memory>
        ensures made { IfOk result (λ made. made ≡ (if is_text bytes.now then Some bytes.now else None)) }
        ensures memory_for_one { OnErr result (IsTrue (is_text bytes.now)) }
        ensures memory_for_many { OnErr result (22 < length bytes.now) }
    {
        if !is_text(bytes) {
            return Ok(None);
        }
        let bytes = Stored::of(alloc, bytes)?;
        Ok(Some(Text { bytes }))
    }

    /// The text's bytes, without quotes.
    pub fn as_bytes(&self) -> &[u8]
        ensures value { result.now ≡ self.now }
        ensures valid { IsTrue (is_text self.now) }
    {
        self.bytes.as_slice()
    }
}

impl Checked for Text {
    ghost IsValid = { λ text. IsTrue (is_text text) };
}

impl Copied for Text {
    fn copy(&self) -> Result<Text, Memory> {
        let bytes = self.bytes.copy()?;
        Ok(Text { bytes })
    }
}
