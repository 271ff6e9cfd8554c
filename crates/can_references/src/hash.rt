//! Hashes of keys, by which most keys differ.
ghost use Rattle.std.specs.Prelude.{◌≡◌};
ghost use Rattle.can_references.specs.Hashes.{hashed_bytes, target_hash, entry_hash};
ghost use Rattle.dbc_records.specs.EntryKeys.{target_of, entry_key};

use dbc_records::{EntryKeyRef, TargetRef};

/// What each step of a hash multiplies by.
pub(crate) const FACTOR: u64 = 0x9E37_79B9_7F4A_7C15;

/// A key after its hash. Equal keys have equal hashes, and most other keys differ in theirs, so one comparison distinguishes
/// and orders most keys.
#[derive(Clone, Copy, PartialEq, Eq, PartialOrd, Ord)]
pub(crate) struct Hashed<K> {
    /// The hash.
    pub hash: u64,
    /// The key.
    pub key: K,
}

/// The hash after more bytes.
#[tactic(auto, unfolding(crate::specs::Hashes::hashed_bytes, crate::specs::Hashes::hashed_byte))]
pub(crate) fn hashed_bytes(hash: u64, bytes: &[u8]) -> u64
    ensures { result ≡ hashed_bytes hash bytes.now }
{
    let mut hashed = hash;
    for byte in bytes {
        hashed = hashed.wrapping_mul(FACTOR).wrapping_add(u64::from(*byte));
    }
    hashed
}

fn target_hash(target: &TargetRef<'_>) -> u64
    ensures { result ≡ target_hash (target_of target.now) }
{
    match target {
        TargetRef::Whole => 0,
        TargetRef::Node(name) => hashed_bytes(0, name),
        TargetRef::Message(number) => u64::from(*number),
        TargetRef::Signal(number, name) => hashed_bytes(u64::from(*number), name),
    }
}

/// The hash of the key of an entry: equal keys have equal hashes, and most other keys differ in theirs.
pub fn entry_hash(key: &EntryKeyRef<'_>) -> u64
    ensures { result ≡ entry_hash (entry_key key.now) }
{
    match key {
        EntryKeyRef::Table(name) | EntryKeyRef::Definition(_, name) | EntryKeyRef::Default(name) =>
            hashed_bytes(0, name),
        EntryKeyRef::Comment(target) => target_hash(target),
        EntryKeyRef::Attribute(name, target) => hashed_bytes(target_hash(target), name),
        EntryKeyRef::Values(number, signal)
        | EntryKeyRef::Float(number, signal)
        | EntryKeyRef::Mux(number, signal) => hashed_bytes(u64::from(*number), signal),
    }
}
