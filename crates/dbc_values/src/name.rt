//! Names of messages, signals, nodes and tables.
ghost use Rattle.std.specs.Prelude.{◌≡◌, ◌<◌, false, IfOk, OnErr, IsTrue, Some, None, length, if◌then◌else◌};
ghost use Rattle.std.specs.List.{list_any, list_all};
ghost use Rattle.std.specs.Str.{bytes_eq};
ghost use Rattle.dbc_values.specs.Lexical.{is_name, is_word, is_keyword, is_word_byte, is_kept_word, statement_words};
ghost use Rattle.dbc_values.specs.Lexical.{relation_words, ends_in_underscore};

use crate::class::{is_letter, is_word_byte};
use crate::list::{Checked, Copied};
use crate::memory::Memory;
use crate::stored::Stored;
use std::alloc::Global;
use std::marker::Model;

/// A name: a C identifier that is no keyword of the format. `VERSION` is a name. Copies share the bytes of a long one.
#[derive(Drop)]
pub struct Name {
    bytes: Stored,
}

impl Model for Name {
    ghost use Rattle.std.specs.Prelude.{ℕ, List, IsTrue};
    ghost use Rattle.dbc_values.specs.Lexical.{is_name};

    ghost Value = { List ℕ };

    ghost view = { λ name. name.bytes };

    ghost invariant = { λ name. IsTrue (is_name name.bytes) };
}

fn are_word_bytes(bytes: &[u8]) -> bool
    ensures { result ≡ list_all is_word_byte bytes.now }
{
    bytes.iter().all(|b| is_word_byte(*b))
}

/// Whether the bytes are a letter or an underscore, and then letters, digits and underscores.
pub fn is_word(bytes: &[u8]) -> bool
    ensures { result ≡ is_word bytes.now }
{
    match bytes {
        [] => false,
        [first, rest @ ..] => is_letter(*first) && are_word_bytes(rest),
    }
}

/// Whether the two have the same bytes.
pub fn same(a: &[u8], b: &[u8]) -> bool
    ensures { result ≡ bytes_eq a.now b.now }
{
    a == b
}

fn is_statement_word(word: &[u8]) -> bool
    ensures { result ≡ list_any (bytes_eq word.now) statement_words }
{
    same(word, b"NS_")
        || same(word, b"BS_")
        || same(word, b"BU_")
        || same(word, b"BO_")
        || same(word, b"SG_")
        || same(word, b"CM_")
        || same(word, b"BA_")
        || same(word, b"VAL_")
        || same(word, b"VAL_TABLE_")
        || same(word, b"BA_DEF_")
        || same(word, b"BA_DEF_DEF_")
        || same(word, b"SIG_VALTYPE_")
        || same(word, b"SG_MUL_VAL_")
}

/// Whether statements that begin with this word are kept verbatim.
pub fn is_kept_word(word: &[u8]) -> bool
    ensures { result ≡ is_kept_word word.now }
{
    same(word, b"BO_TX_BU_")
        || same(word, b"EV_")
        || same(word, b"ENVVAR_DATA_")
        || same(word, b"EV_DATA_")
        || same(word, b"SIG_GROUP_")
        || same(word, b"SGTYPE_")
        || same(word, b"SGTYPE_VAL_")
        || same(word, b"SIG_TYPE_REF_")
        || same(word, b"SIGTYPE_VALTYPE_")
        || same(word, b"BA_DEF_SGTYPE_")
        || same(word, b"BA_SGTYPE_")
        || same(word, b"BA_DEF_REL_")
        || same(word, b"BA_REL_")
        || same(word, b"BA_DEF_DEF_REL_")
        || same(word, b"CAT_DEF_")
        || same(word, b"CAT_")
}

fn is_relation_word(word: &[u8]) -> bool
    ensures { result ≡ list_any (bytes_eq word.now) relation_words }
{
    same(word, b"BU_SG_REL_") || same(word, b"BU_EV_REL_") || same(word, b"BU_BO_REL_")
}

/// Whether the word is a keyword of the format. `VERSION` isn't one here.
#[tactic(auto, unfolding(crate::specs::Lexical::is_keyword))]
pub(crate) fn is_keyword(word: &[u8]) -> bool
    ensures { result ≡ is_keyword word.now }
{
    is_statement_word(word) || is_kept_word(word) || is_relation_word(word)
}

/// Whether the last byte is an underscore. Every keyword of the format ends in one, and few other words do.
#[inline(always)]
pub fn ends_in_underscore(word: &[u8]) -> bool
    ensures value { result ≡ ends_in_underscore word.now }
    ensures keyword { result ≡ false → is_keyword word.now ≡ false }
{
    !word.is_empty() && word[word.len() - 1] == b'_'
}

/// Whether the bytes are a name.
#[tactic(auto, unfolding(crate::specs::Lexical::is_name))]
pub fn is_name(bytes: &[u8]) -> bool
    ensures { result ≡ is_name bytes.now }
{
    is_word(bytes) && !(ends_in_underscore(bytes) && is_keyword(bytes))
}

impl Name {
    /// The name of these bytes, or `None` if they are no name. A name of at most 22 bytes needs no allocation.
    pub fn new(alloc: Global, bytes: &[u8]) -> Result<Option<Name>, Memory>
        ensures made { IfOk result (λ made. made ≡ (if is_name bytes.now then Some bytes.now else None)) }
        ensures memory_for_one { OnErr result (IsTrue (is_name bytes.now)) }
        ensures memory_for_many { OnErr result (22 < length bytes.now) }
    {
        if !is_name(bytes) {
            return Ok(None);
        }
        let bytes = Stored::of(alloc, bytes)?;
        Ok(Some(Name { bytes }))
    }

    /// The name's bytes, which are ASCII.
    pub fn as_bytes(&self) -> &[u8]
        ensures value { result.now ≡ self.now }
        ensures valid { IsTrue (is_name self.now) }
    {
        self.bytes.as_slice()
    }
}

impl Checked for Name {
    ghost IsValid = { λ name. IsTrue (is_name name) };
}

impl Copied for Name {
    fn copy(&self) -> Result<Name, Memory> {
        let bytes = self.bytes.copy()?;
        Ok(Name { bytes })
    }
}
