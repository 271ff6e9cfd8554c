//! Keys of one type, distinguished as they are added.
ghost use Rattle.std.specs.Prelude.{◌≡◌, not, [], ◌∷◌, ◌++◌, IfOk, OnOk, OnErr};
ghost use Rattle.std.specs.List.{list_any};

use dbc_values::Memory;
use std::alloc::Global;
use std::collections::BTreeSet;
use std::marker::Model;

/// All keys that were added, and each of them once.
#[derive(Drop)]
pub(crate) struct Keys<K: Ord + Copy> {
    added: Vec<K>,
    once: BTreeSet<K>,
}

impl<K: Ord + Copy> Model for Keys<K> {
    ghost use Rattle.std.specs.Prelude.{List};
    ghost use Rattle.can_references.specs.inner.KeySets.{AreKeys};

    ghost Value = { List K };

    ghost view = { λ keys. keys.added.items };

    ghost invariant = { λ keys. AreKeys K.cmp keys.once keys.added.items };
}

impl<K: Ord + Copy> Keys<K> {
    /// No keys. It allocates nothing.
    pub(crate) fn new(alloc: Global) -> Keys<K>
        ensures { result ≡ [] }
    {
        Keys {
            added: Vec::new(alloc),
            once: BTreeSet::new(alloc),
        }
    }

    /// Adds the key, and returns whether it is new.
    pub(crate) fn add(&mut self, key: K) -> Result<bool, Memory>
        ensures added { OnOk result (self.new ≡ self.old ++ key ∷ []) }
        ensures is_new { IfOk result (λ is_new. is_new ≡ not (list_any (K.eq key) self.old)) }
        ensures err { OnErr result (self.new ≡ self.old) }
    {
        self.added.reserve(1)?;
        let is_new = self.once.insert(key)?;
        self.added.push_reserved(key);
        Ok(is_new)
    }
}
