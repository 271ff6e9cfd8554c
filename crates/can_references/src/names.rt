//! Names.
ghost use Rattle.std.specs.Prelude.{◌≡◌, nat_le, All, map, count_by, IfOk};
ghost use Rattle.std.specs.List.{list_any};
ghost use Rattle.std.specs.List.Sorted.{IsPermutation};
ghost use Rattle.std.specs.Str.{bytes_eq};
ghost use Rattle.can_references.specs.Hashes.{hashed_bytes};

use crate::hash::{Hashed, hashed_bytes};
use crate::sorted::Sorted;
use dbc_values::Memory;
use std::alloc::Global;
use std::marker::Model;

/// Names, in any order.
#[derive(Drop)]
pub struct Names<'a> {
    keys: Sorted<Hashed<&'a [u8]>>,
}

impl<'a> Model for Names<'a> {
    ghost use Rattle.std.specs.Prelude.{◌≡◌, ℕ, List, All, map};
    ghost use Rattle.can_references.specs.Hashes.{hashed_bytes};

    ghost Value = { List (List ℕ) };

    ghost view = { λ names. map (λ hashed. hashed.key.now) names.keys };

    ghost invariant = { λ names. All (λ hashed. hashed.hash ≡ hashed_bytes 0 hashed.key.now) names.keys };
}

// The name with its hash.
fn hashed(name: &[u8]) -> Hashed<&[u8]>
    ensures key { result.key.now ≡ name.now }
    ensures hash { result.hash ≡ hashed_bytes 0 name.now }
{
    Hashed {
        hash: hashed_bytes(0, name),
        key: name,
    }
}

// The names with their hashes.
fn hashed_all<'a>(alloc: Global, names: &[&'a [u8]]) -> Result<Vec<Hashed<&'a [u8]>>, Memory>
    ensures keys { IfOk result (λ keys. map (λ hashed. hashed.key.now) keys.items ≡ map (λ name. name.now) names.now) }
    ensures hashes { IfOk result (λ keys. All (λ hashed. hashed.hash ≡ hashed_bytes 0 hashed.key.now) keys.items) }
{
    let mut keys = Vec::with_capacity(alloc, names.len())?;
    for name in names {
        keys.push(hashed(name))?;
    }
    Ok(keys)
}

impl<'a> Names<'a> {
    /// These names.
    pub fn of(alloc: Global, names: &[&'a [u8]]) -> Result<Names<'a>, Memory>
        ensures { IfOk result (λ made. IsPermutation (map (λ name. name.now) names.now) made) }
    {
        Ok(Names {
            keys: Sorted::of(hashed_all(alloc, names)?),
        })
    }

    /// Whether the name is among them.
    pub fn has(&self, name: &'a [u8]) -> bool
        ensures { result ≡ list_any (bytes_eq name.now) self.now }
    {
        self.keys.has(hashed(name))
    }

    /// Whether the name is among them at least twice.
    pub fn is_shared(&self, name: &'a [u8]) -> bool
        ensures { result ≡ nat_le 2 (count_by (bytes_eq name.now) self.now) }
    {
        self.keys.is_shared(hashed(name))
    }
}
