//! Serial numbers of lines by a key.
ghost use Rattle.std.specs.Prelude.{◌≡◌, ◌==◌, ◌-◌, ℕ, [], ◌∷◌, ◌++◌, OnOk, OnErr, IfOk, drop, take, length, map, if◌then◌else◌};
ghost use Rattle.session_log.specs.Positions.{position_from};
ghost use Rattle.session_log.specs.inner.Indexes.{numbers_in, serials_at};

use crate::log_hash::LogHash;
use dbc_values::Memory;
use indexmap::IndexMap;
use std::alloc::Global;
use std::collections::VecDeque;

/// The serial numbers of lines, of which there is at least one, in order of arrival.
#[derive(Drop)]
pub(crate) struct Serials {
    /// The serial number of the oldest line.
    pub first: usize,
    /// The serial numbers of the others.
    pub later: VecDeque<usize>,
}

/// The serial numbers for each key that has any.
pub(crate) type KeyedSerials = IndexMap<u32, Serials, LogHash>;

/// Adds one after those for a key. If memory runs out, none changes.
pub(crate) fn add(
    alloc: Global,
    serials: &mut KeyedSerials,
    key: u32,
    serial: usize,
) -> Result<(), Memory>
    ensures ok { OnOk result ((other : ℕ) → serials_at other serials.new ≡ serials_at other serials.old
        ++ (if other == key then serial ∷ [] else [])) }
    ensures err { OnErr result ((other : ℕ) → serials_at other serials.new ≡ serials_at other serials.old) }
{
    if let Some(there) = serials.get_mut(&key) {
        there.later.push_back(serial)?;
        return Ok(());
    }
    let only = Serials {
        first: serial,
        later: VecDeque::new(alloc),
    };
    serials.insert(key, only)?;
    Ok(())
}

// Capacity for this few is never released.
const MIN_CAPACITY: usize = 64;

// Releases half the capacity of a queue if not even a quarter of it is used, and all of it if it is empty. If there is no memory
// for the smaller block, all of the capacity stays.
fn give_back(queue: &mut VecDeque<usize>)
    ensures { queue.new.items ≡ queue.old.items }
{
    let space = queue.capacity();
    if space < MIN_CAPACITY || queue.len() >= space / 4 {
        return;
    }
    let alloc = *queue.allocator();
    if queue.is_empty() {
        *queue = VecDeque::new(alloc);
        return;
    }
    if let Ok(mut smaller) = VecDeque::with_capacity(alloc, space / 2) {
        if smaller.append(queue).is_ok() {
            *queue = smaller;
        }
    }
}

/// Removes the first one for a key, and the key with the last of them. If memory runs out, only more capacity is kept.
pub(crate) fn drop_first(serials: &mut KeyedSerials, key: u32)
    ensures { (other : ℕ) → serials_at other serials.new ≡ (if other == key then drop 1 (serials_at other serials.old) else
        serials_at other serials.old) }
{
    if let Some(there) = serials.get_mut(&key) {
        if let Some(next) = there.later.pop_front() {
            there.first = next;
            give_back(&mut there.later);
            return;
        }
    }
    let _only = serials.swap_remove(&key);
}

/// Removes the last one for a key, and the key with the first of them.
pub(crate) fn drop_last(serials: &mut KeyedSerials, key: u32)
    ensures { (other : ℕ) → serials_at other serials.new ≡ (if other == key then take (length (serials_at other serials.old) - 1)
        (serials_at other serials.old) else serials_at other serials.old) }
{
    if let Some(there) = serials.get_mut(&key) {
        if there.later.pop_back().is_some() {
            return;
        }
    }
    let _first = serials.swap_remove(&key);
}

impl Serials {
    /// The indexes of their lines, where the first of all lines has the serial number `first`.
    pub(crate) fn positions(&self, alloc: Global, first: usize) -> Result<Vec<usize>, Memory>
        ensures { IfOk result (λ positions. positions.items ≡ map (position_from first) (numbers_in self.now)) }
    {
        let mut positions = Vec::new(alloc);
        positions.push(self.first.wrapping_sub(first))?;
        for serial in self.later.iter() {
            positions.push(serial.wrapping_sub(first))?;
        }
        Ok(positions)
    }
}
