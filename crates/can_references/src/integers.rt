//! Whole numbers.
ghost use Rattle.std.specs.Prelude.{◌≡◌, not, [], ◌∷◌, ◌++◌, IfOk, OnOk, OnErr};
ghost use Rattle.std.specs.List.{list_any};
ghost use Rattle.std.specs.Ordering.{int_eq};

use crate::keys::Keys;
use arrayvec::ArrayVec;
use dbc_values::Memory;
use std::alloc::Global;
use std::marker::Model;

/// Whole numbers that were added, in order. The first few are searched one by one, and need no memory of their own; those after
/// them are in a set.
#[derive(Drop)]
pub struct Integers {
    few: ArrayVec<i128, 8>,
    others: Keys<i128>,
}

impl Model for Integers {
    ghost use Rattle.std.specs.Prelude.{◌≡◌, ◌<◌, ℤ, List, [], ◌++◌, length};

    ghost Value = { List ℤ };

    ghost view = { λ numbers. numbers.few.items ++ numbers.others };

    ghost invariant = { λ numbers. length numbers.few.items < 8 → numbers.others ≡ [] };
}

impl Integers {
    /// No numbers. It allocates nothing.
    pub fn new(alloc: Global) -> Integers
        ensures { result ≡ [] }
    {
        Integers {
            few: ArrayVec::new(),
            others: Keys::new(alloc),
        }
    }

    /// Adds the number, and returns whether it is new.
    pub fn add(&mut self, number: i128) -> Result<bool, Memory>
        ensures added { OnOk result (self.new ≡ self.old ++ number ∷ []) }
        ensures is_new { IfOk result (λ is_new. is_new ≡ not (list_any (int_eq number) self.old)) }
        ensures err { OnErr result (self.new ≡ self.old) }
    {
        let is_among = self.few.contains(&number);
        if !self.few.is_full() {
            self.few.push(number);
            return Ok(!is_among);
        }
        let is_new = self.others.add(number)?;
        Ok(is_new && !is_among)
    }
}
