//! Keys of one type, in order.
ghost use Rattle.std.specs.Prelude.{◌≡◌, nat_le, count_by};
ghost use Rattle.std.specs.List.{list_any};
ghost use Rattle.std.specs.List.Sorted.{IsPermutation};
ghost use Rattle.std.specs.Ordering.{is_lt};
ghost use Rattle.can_references.specs.inner.KeySets.{HoldsFrom};

use std::marker::Model;

/// Keys, the lowest first, so that equal ones are adjacent.
#[derive(Drop)]
pub(crate) struct Sorted<K: Ord + Copy> {
    keys: Vec<K>,
}

impl<K: Ord + Copy> Model for Sorted<K> {
    ghost use Rattle.std.specs.Prelude.{List};
    ghost use Rattle.std.specs.List.Sorted.{IsSorted};

    ghost Value = { List K };

    ghost view = { λ sorted. sorted.keys.items };

    ghost invariant = { λ sorted. IsSorted K.cmp sorted.keys.items };
}

impl<K: Ord + Copy> Sorted<K> {
    /// These keys. It allocates nothing.
    pub(crate) fn of(mut keys: Vec<K>) -> Sorted<K>
        ensures { IsPermutation keys.items result }
    {
        keys.sort_unstable();
        Sorted { keys }
    }

    // The keys from the first on that is not below this one.
    fn from(&self, key: K) -> &[K]
        ensures { HoldsFrom K.cmp K.eq key self.now result.now }
    {
        let keys = self.keys.as_slice();
        let first = keys.partition_point(
            |other: &K| -> bool
                ensures { result ≡ is_lt (K.cmp other.now key) }
            { other.cmp(&key).is_lt() },
        );
        &keys[first..]
    }

    /// Whether the key is among them.
    pub(crate) fn has(&self, key: K) -> bool
        ensures { result ≡ list_any (K.eq key) self.now }
    {
        match self.from(key) {
            [first, ..] => *first == key,
            [] => false,
        }
    }

    /// Whether the key is among them at least twice.
    pub(crate) fn is_shared(&self, key: K) -> bool
        ensures { result ≡ nat_le 2 (count_by (K.eq key) self.now) }
    {
        match self.from(key) {
            [_, second, ..] => *second == key,
            _ => false,
        }
    }
}
