//! The digits of numbers that fit in one word.
ghost use Rattle.std.specs.Prelude.{◌≡◌, [], ◌+◌, ◌≤◌, ◌++◌, OnOk, length, take, drop, decimal};

use crate::text_buffer::TextBuffer;
use dbc_values::Memory;
use itoa::write_digits;
use std::marker::Model;

// The index before which the digits end: as many as there can be.
const END: usize = 20;

/// The decimal digits of a number, from which parts are appended.
#[derive(Drop)]
pub struct Digits {
    // The digits, followed by space for a 32-byte read.
    space: [u8; 52],
    // Where they begin.
    start: usize,
}

impl Model for Digits {
    ghost use Rattle.std.specs.Prelude.{List, ℕ, ◌-◌, ◌≤◌, take, drop};

    ghost Value = { List ℕ };

    ghost view = { λ a. take (20 - a.start) (drop a.start a.space) };

    ghost invariant = { λ a. a.start ≤ 20 };
}

impl Digits {
    /// No digits yet.
    pub fn none() -> Digits
        ensures { result ≡ [] }
    {
        Digits {
            space: [0; 52],
            start: END,
        }
    }

    /// Takes the digits of a number in place of those before. They are written where they stay, since moving them right after would
    /// wait for each write.
    #[tactic(auto, using(crate::proofs::Parts::digits_in_space))]
    #[inline(always)]
    pub fn write(&mut self, number: u64)
        ensures { self.new ≡ decimal number }
    {
        self.start = write_digits(number, &mut self.space, END);
    }

    /// How many digits there are.
    pub fn len(&self) -> usize
        ensures { result ≡ length self.now }
    {
        END - self.start
    }

    /// The digits.
    pub fn as_slice(&self) -> &[u8]
        ensures { result.now ≡ self.now }
    {
        &self.space[self.start..END]
    }

    // Appends some of the digits, from one on.
    #[inline(always)]
    fn push_part(&self, text: &mut TextBuffer, from: usize, count: usize) -> Result<(), Memory>
        requires { from + count ≤ length self.now }
        ensures { OnOk result (text.new.items ≡ text.old.items ++ take count (drop from self.now)) }
    {
        match self.space[self.start + from..].first_chunk::<32>() {
            Some(front) => text.push_first(front, count),
            None => unreachable!(),
        }
    }

    /// Appends the first digits.
    #[inline(always)]
    pub fn push_first(&self, text: &mut TextBuffer, count: usize) -> Result<(), Memory>
        requires { count ≤ length self.now }
        ensures { OnOk result (text.new.items ≡ text.old.items ++ take count self.now) }
    {
        self.push_part(text, 0, count)
    }

    /// Appends the digits after the first.
    #[inline(always)]
    pub fn push_after(&self, text: &mut TextBuffer, count: usize) -> Result<(), Memory>
        requires { count ≤ length self.now }
        ensures { OnOk result (text.new.items ≡ text.old.items ++ drop count self.now) }
    {
        self.push_part(text, count, self.len() - count)
    }
}
