//! Texts that are cached for appending.
ghost use Rattle.std.specs.Prelude.{◌≡◌, [], ◌<◌, ◌≤◌, ◌++◌, IfOk, OnOk, drop};

use crate::text_buffer::{TextBuffer, push_bytes};
use dbc_values::Memory;
use std::alloc::Global;
use std::marker::Model;

// A prefix of this many bytes is copied at a fixed length.
const FRONT_SIZE: usize = 32;

/// A text that is appended often. A text of at most 32 bytes is appended without a copy of variable length.
#[derive(Drop)]
pub struct ReadyText {
    // The first bytes, and zeros if there are fewer.
    front: [u8; FRONT_SIZE],
    // How many of them are used.
    count: usize,
    // The bytes after them.
    rest: Vec<u8>,
    ghost within: { count ≤ 32 },
    ghost full: { count < 32 → rest.items ≡ [] },
}

impl Model for ReadyText {
    ghost use Rattle.std.specs.Prelude.{List, ℕ, take, ◌++◌};

    ghost Value = { List ℕ };

    ghost view = { λ a. take a.count a.front ++ a.rest.items };
}

// Appends what is after a prefix, which is mostly nothing.
#[inline(always)]
fn push_rest(text: &mut TextBuffer, rest: &[u8]) -> Result<(), Memory>
    ensures { OnOk result (text.new.items ≡ text.old.items ++ rest.now) }
{
    if !rest.is_empty() {
        push_bytes(text, rest)?;
    }
    Ok(())
}

impl ReadyText {
    /// A text, cached.
    pub fn of(alloc: Global, text: &[u8]) -> Result<ReadyText, Memory>
        ensures { IfOk result (λ ready. ready ≡ text.now) }
    {
        let count = text.len().min(FRONT_SIZE);
        let (head, after) = text.split_at(count);
        let mut front = [0; FRONT_SIZE];
        front[..count].copy_from_slice(head);
        let rest = Vec::from_slice(alloc, after)?;
        Ok(ReadyText { front, count, rest })
    }

    /// Appends the text.
    #[inline(always)]
    pub fn push_to(&self, text: &mut TextBuffer) -> Result<(), Memory>
        ensures { OnOk result (text.new.items ≡ text.old.items ++ self.now) }
    {
        text.push_first(&self.front, self.count)?;
        push_rest(text, self.rest.as_slice())?;
        Ok(())
    }

    /// Appends the text after its first two bytes.
    #[tactic(auto, using(crate::proofs::Parts::after_two_of_short))]
    #[inline(always)]
    pub fn push_after_two(&self, text: &mut TextBuffer) -> Result<(), Memory>
        ensures { OnOk result (text.new.items ≡ text.old.items ++ drop 2 self.now) }
    {
        if self.count < 2 {
            return Ok(());
        }
        match self.front[2..].first_chunk::<30>() {
            Some(after) => text.push_first(after, self.count - 2)?,
            None => unreachable!(),
        }
        push_rest(text, self.rest.as_slice())?;
        Ok(())
    }
}
