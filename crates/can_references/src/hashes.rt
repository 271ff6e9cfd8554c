//! Marks: 32-bit hashes of names, which distinguish most signals of a message.
ghost use Rattle.std.specs.Prelude.{◌≡◌};
ghost use Rattle.can_references.specs.inner.SignalHashes.{hashed_word, hashed_words, hashed_name, name_hash};

use crate::hash::{FACTOR, hashed_bytes};

// The hash after eight more bytes.
#[tactic(auto, unfolding(crate::specs::inner::SignalHashes::hashed_word))]
#[inline(always)]
fn hashed_word(hash: u64, word: &[u8; 8]) -> u64
    ensures { result ≡ hashed_word hash word.now }
{
    hash.wrapping_add(u64::from_le_bytes(*word))
        .wrapping_mul(FACTOR)
}

// The hash of the bytes, eight at a time, except fewer than eight at their end.
#[inline(always)]
fn hashed_words(bytes: &[u8]) -> u64
    ensures { result ≡ hashed_words 0 bytes.now }
{
    let mut hash = 0;
    let mut rest = bytes;
    'words: while let Some((word, after)) = rest.split_first_chunk::<8>() {
        hash = hashed_word(hash, word);
        rest = after;
    }
    hash
}

// The hash of a name. The last eight bytes are a step of their own, so only a name of fewer than eight bytes is
// hashed byte by byte.
#[inline(always)]
fn hashed_name(name: &[u8]) -> u64
    ensures { result ≡ hashed_name name.now }
{
    match name.split_last_chunk::<8>() {
        Some((_, last)) => hashed_word(hashed_words(name), last),
        None => hashed_bytes(0, name).wrapping_mul(FACTOR),
    }
}

/// The mark of a name: equal names have equal marks, and most other names differ in theirs.
#[tactic(auto, unfolding(crate::specs::inner::SignalHashes::name_hash))]
pub(crate) fn name_hash(name: &[u8]) -> u32
    ensures { result ≡ name_hash name.now }
{
    (hashed_name(name) >> 32) as u32
}
