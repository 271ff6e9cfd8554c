//! Keys of entries.
ghost use Rattle.std.specs.Prelude.{◌≡◌, not, [], ◌∷◌, ◌++◌, IfOk, OnOk, OnErr};
ghost use Rattle.std.specs.List.{list_any};
ghost use Rattle.dbc_records.specs.EntryKeys.{same_key};
ghost use Rattle.dbc_records.specs.EntryKeys.{entry_key};

use crate::hash::{Hashed, entry_hash};
use crate::keys::Keys;
use dbc_records::EntryKeyRef;
use dbc_values::Memory;
use std::alloc::Global;
use std::marker::Model;

/// Keys of entries that were added, in order.
#[derive(Drop)]
pub struct EntryKeys<'a> {
    keys: Keys<Hashed<EntryKeyRef<'a>>>,
}

impl<'a> Model for EntryKeys<'a> {
    ghost use Rattle.std.specs.Prelude.{◌≡◌, List, All, map};
    ghost use Rattle.can_references.specs.Hashes.{entry_hash};
    ghost use Rattle.dbc_records.specs.declared.entry_key.EntryKey.{EntryKey};
    ghost use Rattle.dbc_records.specs.EntryKeys.{entry_key};

    ghost Value = { List EntryKey };

    ghost view = { λ keys. map (λ hashed. entry_key hashed.key) keys.keys };

    ghost invariant = { λ keys. All (λ hashed. hashed.hash ≡ entry_hash (entry_key hashed.key)) keys.keys };
}

impl<'a> EntryKeys<'a> {
    /// No keys. It allocates nothing.
    pub fn new(alloc: Global) -> EntryKeys<'a>
        ensures { result ≡ [] }
    {
        EntryKeys {
            keys: Keys::new(alloc),
        }
    }

    /// Adds the key, and returns whether it is new.
    pub fn add(&mut self, key: EntryKeyRef<'a>) -> Result<bool, Memory>
        ensures added { OnOk result (self.new ≡ self.old ++ entry_key key.entry ∷ []) }
        ensures is_new { IfOk result (λ is_new. is_new ≡ not (list_any (same_key (entry_key key.entry)) self.old)) }
        ensures err { OnErr result (self.new ≡ self.old) }
    {
        self.keys.add(Hashed {
            hash: entry_hash(&key),
            key,
        })
    }
}
