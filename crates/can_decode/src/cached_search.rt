//! What CAN identifiers went to before.
ghost use Rattle.std.specs.Prelude.{◌≡◌, All, IfOk};
ghost use Rattle.can_decode.specs.Choices.{choice_of};
ghost use Rattle.can_decode.specs.MessageIndexes.{IsCachedChoice};

use crate::message_search::{Choice, MessageSearch};
use dbc_values::Memory;
use std::alloc::Global;
use std::marker::Model;

// Every standard (11-bit) CAN identifier has a slot of its own.
const CACHE_SIZE: usize = 2048;

// A CAN identifier, and what it goes to.
#[derive(Clone, Copy)]
struct Entry {
    number: u32,
    choice: Option<Choice>,
}

/// Finds what CAN identifiers go to, and caches it in a table of fixed size: a CAN identifier replaces another one. The table is
/// allocated for the first CAN identifier.
#[derive(Drop)]
pub struct CachedSearch<C: MessageSearch> {
    search: C,
    // The table, or nothing if it wasn't allocated yet.
    entries: Vec<Entry>,
}

impl<C: MessageSearch> Model for CachedSearch<C> {
    ghost use Rattle.std.specs.Prelude.{All};
    ghost use Rattle.dbc_records.specs.Databases.{Database};
    ghost use Rattle.can_decode.specs.MessageIndexes.{IsCachedChoice};

    ghost Value = { Database };

    ghost view = { λ a. C.whole a.search };

    ghost invariant = { λ a. All (IsCachedChoice (C.whole a.search)) a.entries.items };
}

// The slot in the table for a CAN identifier. Extended (29-bit) ones are spread over the table.
fn slot_of(number: u32) -> usize {
    let spread = if number <= 2047 {
        number
    } else {
        number.wrapping_mul(0x9E37_79B1) >> 21
    };
    spread as usize % CACHE_SIZE
}

fn entry_of<C: MessageSearch>(search: &mut C, number: u32) -> Result<Entry, Memory>
    ensures entry { IfOk result (λ entry. entry ≡ record { number = number; choice = choice_of (C.whole search.old) number }) }
    ensures same { C.whole search.new ≡ C.whole search.old }
{
    let choice = search.choice(number)?;
    Ok(Entry { number, choice })
}

// A table that has this entry in each slot.
fn table_of(alloc: Global, entry: Entry) -> Result<Vec<Entry>, Memory>
    ensures { IfOk result (λ table. All (λ other. other ≡ entry) table.items) }
{
    let entries = vec![in alloc; entry; CACHE_SIZE]?;
    Ok(entries)
}

impl<C: MessageSearch> CachedSearch<C> {
    /// One that has no table yet. It allocates nothing.
    pub fn new(alloc: Global, search: C) -> Self
        ensures { result ≡ C.whole search }
    {
        CachedSearch {
            search,
            entries: Vec::new(alloc),
        }
    }

    // Finds what a CAN identifier goes to, and caches it in its slot. If there is no table yet, it allocates one that has
    // it in each slot.
    fn find(&mut self, slot: usize, number: u32) -> Result<Option<Choice>, Memory>
        ensures choice { IfOk result (λ choice. choice ≡ choice_of self.old number) }
        ensures same { self.new ≡ self.old }
    {
        let entry = entry_of(&mut self.search, number)?;
        if slot < self.entries.len() {
            self.entries[slot] = entry;
        } else {
            self.entries = table_of(*self.entries.allocator(), entry)?;
        }
        Ok(entry.choice)
    }
}

impl<C: MessageSearch> MessageSearch for CachedSearch<C> {
    ghost whole = { λ database. database };

    fn choice(&mut self, number: u32) -> Result<Option<Choice>, Memory> {
        let slot = slot_of(number);
        match self.entries.get(slot) {
            Some(entry) if entry.number == number => Ok(entry.choice),
            _ => self.find(slot, number),
        }
    }
}
