//! Signals found by hashes of their message IDs and names.
ghost use Rattle.std.specs.Prelude.{◌≡◌, All, map, IfOk};
ghost use Rattle.std.specs.List.{list_any};
ghost use Rattle.std.specs.List.Sorted.{IsPermutation};
ghost use Rattle.can_references.specs.Hashes.{hashed_bytes};
ghost use Rattle.can_references.specs.SignalNames.{same_signal, named_signal};

use crate::hash::{Hashed, hashed_bytes};
use crate::sorted::Sorted;
use dbc_values::Memory;
use std::alloc::Global;
use std::marker::Model;

/// Signals, in any order: the CAN identifier of the message, and the signal's name. Any number of them may have
/// the same CAN identifier.
#[derive(Drop)]
pub(crate) struct HashedSignals<'a> {
    keys: Sorted<Hashed<(u32, &'a [u8])>>,
}

impl<'a> Model for HashedSignals<'a> {
    ghost use Rattle.std.specs.Prelude.{◌≡◌, ℕ, List, All, map};
    ghost use Rattle.can_references.specs.Hashes.{hashed_bytes};
    ghost use Rattle.can_references.specs.SignalNames.{named_signal};

    ghost Value = { List (ℕ × List ℕ) };

    ghost view = { λ names. map (λ hashed. named_signal hashed.key) names.keys };

    ghost invariant = { λ names. All (λ hashed. hashed.hash ≡ hashed_bytes hashed.key.0 hashed.key.1.now) names.keys };
}

// The signal with its hash.
fn hashed<'a>(key: (u32, &'a [u8])) -> Hashed<(u32, &'a [u8])>
    ensures number { result.key.0 ≡ key.entry.0 }
    ensures name { result.key.1.now ≡ key.entry.1.now }
    ensures hash { result.hash ≡ hashed_bytes key.entry.0 key.entry.1.now }
{
    Hashed {
        hash: hashed_bytes(u64::from(key.0), key.1),
        key,
    }
}

// The signals with their hashes.
fn hashed_all<'a>(
    alloc: Global,
    signals: &[(u32, &'a [u8])],
) -> Result<Vec<Hashed<(u32, &'a [u8])>>, Memory>
    ensures keys { IfOk result (λ keys. map (λ hashed. named_signal hashed.key) keys.items ≡ map named_signal signals.now) }
    ensures hashes { IfOk result (λ keys. All (λ hashed. hashed.hash ≡ hashed_bytes hashed.key.0 hashed.key.1.now) keys.items) }
{
    let mut keys = Vec::with_capacity(alloc, signals.len())?;
    for signal in signals {
        keys.push(hashed(*signal))?;
    }
    Ok(keys)
}

impl<'a> HashedSignals<'a> {
    /// These signals.
    pub(crate) fn of(
        alloc: Global,
        signals: &[(u32, &'a [u8])],
    ) -> Result<HashedSignals<'a>, Memory>
        ensures { IfOk result (λ made. IsPermutation (map named_signal signals.now) made) }
    {
        Ok(HashedSignals {
            keys: Sorted::of(hashed_all(alloc, signals)?),
        })
    }

    /// Whether the signal is among them.
    pub(crate) fn has(&self, key: (u32, &'a [u8])) -> bool
        ensures { result ≡ list_any (same_signal (key.entry.0, key.entry.1.now)) self.now }
    {
        self.keys.has(hashed(key))
    }
}
