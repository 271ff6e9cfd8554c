//! Tokens of the statements kept verbatim.
ghost use Rattle.std.specs.Prelude.{◌≡◌, ◌<◌, get_or, [], ◌∷◌, ◌++◌, All, IsTrue, OnOk, OnErr, length, option_map, slice_get};
ghost use Rattle.dbc_values.specs.Pieces.{is_piece, is_string, is_mark_but_semicolon, IsPiece};
ghost use Rattle.dbc_values.specs.inner.Parts.{parts_from, ArePlaces};

use crate::list::{Checked, Copied};
use crate::memory::Memory;
use crate::name::is_word;
use crate::number::is_number;
use crate::text::is_text;
use std::alloc::Global;
use std::marker::Model;

/// Tokens, one after the other: each is a string with its quotes, a word, a number without a sign, or a mark other than `;`.
/// Contracts see a list of tokens.
#[derive(Drop)]
pub struct Pieces {
    // The bytes of all tokens, without anything between them.
    bytes: Vec<u8>,
    // Where each token ends.
    ends: Vec<usize>,
}

impl Model for Pieces {
    ghost use Rattle.std.specs.Prelude.{ℕ, List};
    ghost use Rattle.dbc_values.specs.inner.Parts.{parts_from, HoldPieces};

    ghost Value = { List (List ℕ) };

    ghost view = { λ pieces. parts_from 0 pieces.ends.items pieces.bytes.items };

    ghost invariant = { λ pieces. HoldPieces pieces.ends.items pieces.bytes.items };
}

/// Whether the bytes are a text between quotes.
#[tactic(auto, using(crate::proofs::Strings::quoted_by_ends), unfolding(crate::specs::Pieces::is_string))]
pub fn is_string(bytes: &[u8]) -> bool
    ensures { result ≡ is_string bytes.now }
{
    match bytes {
        [first, text @ .., last] => *first == b'"' && *last == b'"' && is_text(text),
        _ => false,
    }
}

fn is_mark_but_semicolon(bytes: &[u8]) -> bool
    ensures { result ≡ is_mark_but_semicolon bytes.now }
{
    matches!(
        bytes,
        [b':' | b'|' | b'@' | b'(' | b')' | b'[' | b']' | b',' | b'+' | b'-']
    )
}

/// Whether the bytes are one token, and no `;`.
#[tactic(auto, unfolding(crate::specs::Pieces::is_piece))]
pub fn is_piece(bytes: &[u8]) -> bool
    ensures { result ≡ is_piece bytes.now }
{
    is_string(bytes) || is_word(bytes) || is_number(bytes) || is_mark_but_semicolon(bytes)
}

// Where the part at the index begins: where the part before it ends, if there is one.
fn start_of(ends: &[usize], index: usize) -> usize
    requires { index < length ends.now }
    ensures { result ≡ get_or (0 ∷ ends.now) index 0 }
{
    if index == 0 { 0 } else { ends[index - 1] }
}

// The part at the index, if there are that many.
#[tactic(auto, using(crate::proofs::Parts::part_rises, crate::proofs::Parts::part_within, crate::proofs::Parts::part_is, crate::proofs::Parts::no_part))]
fn part_at<'b>(bytes: &'b [u8], ends: &[usize], index: usize) -> Option<&'b [u8]>
    requires { ArePlaces 0 ends.now (length bytes.now) }
    ensures { option_map (λ part. part.now) result ≡ slice_get (parts_from 0 ends.now bytes.now) index }
{
    if ends.len() <= index {
        return None;
    }
    let start = start_of(ends, index);
    let end = ends[index];
    Some(&bytes[start..end])
}

impl Pieces {
    /// No token. It allocates nothing.
    pub fn new(alloc: Global) -> Pieces
        ensures { result ≡ [] }
    {
        Pieces {
            bytes: Vec::new(alloc),
            ends: Vec::new(alloc),
        }
    }

    /// How many tokens there are.
    #[tactic(auto, using(crate::proofs::Parts::parts_count))]
    pub fn len(&self) -> usize
        ensures { result ≡ length self.now }
    {
        self.ends.len()
    }

    /// The token at the index, if there are that many.
    pub fn get(&self, index: usize) -> Option<&[u8]>
        ensures value { option_map (λ piece. piece.now) result ≡ slice_get self.now index }
        ensures valid { All IsPiece self.now }
    {
        part_at(self.bytes.as_slice(), self.ends.as_slice(), index)
    }

    /// Appends a token. An `Err` changes nothing.
    #[tactic(auto, using(crate::proofs::Parts::one_more_part, crate::proofs::Parts::one_more_held))]
    pub fn push(&mut self, piece: &[u8]) -> Result<(), Memory>
        requires { IsTrue (is_piece piece.now) }
        ensures ok { OnOk result (self.new ≡ self.old ++ piece.now ∷ []) }
        ensures err { OnErr result (self.new ≡ self.old) }
        ensures valid { All IsPiece self.new }
    {
        self.ends.reserve(1)?;
        self.bytes.extend_from_slice(piece)?;
        self.ends.push_reserved(self.bytes.len());
        Ok(())
    }

    /// Releases the capacity reserved for further tokens.
    pub fn shrink_to_fit(&mut self)
        ensures { self.new ≡ self.old }
    {
        self.bytes.shrink_to_fit();
        self.ends.shrink_to_fit();
    }
}

impl Checked for Pieces {
    ghost use Rattle.std.specs.Prelude.{All};
    ghost use Rattle.dbc_values.specs.Pieces.{IsPiece};

    ghost IsValid = { All IsPiece };
}

impl Copied for Pieces {
    fn copy(&self) -> Result<Pieces, Memory> {
        let alloc = *self.bytes.allocator();
        let bytes = Vec::from_slice(alloc, self.bytes.as_slice())?;
        let ends = Vec::from_slice(alloc, self.ends.as_slice())?;
        Ok(Pieces { bytes, ends })
    }
}
