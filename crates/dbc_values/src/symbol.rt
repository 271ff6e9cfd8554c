//! The words of the list of symbols.
ghost use Rattle.std.specs.Prelude.{◌≡◌, IfOk, OnErr, IsTrue, Some, None, if◌then◌else◌};
ghost use Rattle.std.specs.List.{list_any};
ghost use Rattle.std.specs.Str.{bytes_eq};
ghost use Rattle.dbc_values.specs.Names.{is_symbol, words_after_symbols};

use crate::list::{Checked, Copied};
use crate::memory::Memory;
use crate::name::{is_word, same};
use std::alloc::Global;
use std::marker::Model;

/// A word of the list of symbols that `NS_` begins: any word, also a keyword, except `BS_`, `BU_` and `BO_`, at
/// which the list ends.
#[derive(Drop)]
pub struct Symbol {
    bytes: Vec<u8>,
}

impl Model for Symbol {
    ghost use Rattle.std.specs.Prelude.{ℕ, List, IsTrue};
    ghost use Rattle.dbc_values.specs.Names.{is_symbol};

    ghost Value = { List ℕ };

    ghost view = { λ symbol. symbol.bytes.items };

    ghost invariant = { λ symbol. IsTrue (is_symbol symbol.bytes.items) };
}

fn ends_symbols(word: &[u8]) -> bool
    ensures { result ≡ list_any (bytes_eq word.now) words_after_symbols }
{
    same(word, b"BS_") || same(word, b"BU_") || same(word, b"BO_")
}

/// Whether the bytes may be in the list of symbols.
#[tactic(auto, unfolding(crate::specs::Names::is_symbol))]
pub fn is_symbol(bytes: &[u8]) -> bool
    ensures { result ≡ is_symbol bytes.now }
{
    is_word(bytes) && !ends_symbols(bytes)
}

impl Symbol {
    /// The symbol of these bytes, or `None` if they are no word or end the list.
    pub fn new(alloc: Global, bytes: &[u8]) -> Result<Option<Symbol>, Memory>
        ensures made { IfOk result (λ made. made ≡ (if is_symbol bytes.now then Some bytes.now else None)) }
        ensures memory_for_one { OnErr result (IsTrue (is_symbol bytes.now)) }
    {
        if !is_symbol(bytes) {
            return Ok(None);
        }
        let bytes = Vec::from_slice(alloc, bytes)?;
        Ok(Some(Symbol { bytes }))
    }

    /// The symbol's bytes, which are ASCII.
    pub fn as_bytes(&self) -> &[u8]
        ensures value { result.now ≡ self.now }
        ensures valid { IsTrue (is_symbol self.now) }
    {
        self.bytes.as_slice()
    }
}

impl Checked for Symbol {
    ghost use Rattle.dbc_values.specs.Names.{IsSymbol};

    ghost IsValid = { IsSymbol };
}

impl Copied for Symbol {
    fn copy(&self) -> Result<Symbol, Memory> {
        let bytes = Vec::from_slice(*self.bytes.allocator(), self.bytes.as_slice())?;
        Ok(Symbol { bytes })
    }
}
