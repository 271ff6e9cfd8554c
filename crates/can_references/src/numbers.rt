//! CAN identifiers of messages.
ghost use Rattle.std.specs.Prelude.{◌≡◌, ◌==◌, nat_le, count_by};
ghost use Rattle.std.specs.List.{list_any};
ghost use Rattle.std.specs.List.Sorted.{IsPermutation};

use crate::sorted::Sorted;
use std::marker::Model;

/// CAN identifiers, in any order.
#[derive(Drop)]
pub struct Numbers {
    keys: Sorted<u32>,
}

impl Model for Numbers {
    ghost use Rattle.std.specs.Prelude.{ℕ, List};

    ghost Value = { List ℕ };

    ghost view = { λ numbers. numbers.keys };
}

impl Numbers {
    /// These CAN identifiers. It allocates nothing.
    pub fn of(numbers: Vec<u32>) -> Numbers
        ensures { IsPermutation numbers.items result }
    {
        Numbers {
            keys: Sorted::of(numbers),
        }
    }

    /// Whether the CAN identifier is among them.
    pub fn has(&self, number: u32) -> bool
        ensures { result ≡ list_any (λ other. number == other) self.now }
    {
        self.keys.has(number)
    }

    /// Whether the CAN identifier is among them at least twice.
    pub fn is_shared(&self, number: u32) -> bool
        ensures { result ≡ nat_le 2 (count_by (λ other. number == other) self.now) }
    {
        self.keys.is_shared(number)
    }
}
