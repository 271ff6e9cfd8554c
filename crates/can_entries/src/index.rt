//! Entries found by their keys in logarithmic time.
ghost use Rattle.std.specs.Prelude.{◌≡◌, ◌==◌, ◌≤◌, nat_lt, true, false, All, IfOk, length, map, filter};
ghost use Rattle.std.specs.List.{find};
ghost use Rattle.std.specs.List.Sorted.{IsPartitionPoint};
ghost use Rattle.std.specs.Option.{option_map};
ghost use Rattle.std.specs.Ordering.{is_lt, is_eq};
ghost use Rattle.can_entries.specs.declared.index.Entry.{Entry as PlainEntry};
ghost use Rattle.can_entries.specs.Rows.{first_named};
ghost use Rattle.can_entries.specs.inner.Hashes.{name_hash, key_hash};
ghost use Rattle.can_entries.specs.Indexes.{key_order, key_of, has_own_hash, AreInOrder};

use crate::row::Keyed;
use dbc_values::{Memory, same};
use std::alloc::Global;
use std::cmp::Ordering;
use std::marker::Model;

const FACTOR: u32 = 0x9E37_79B1;

const ABOVE_NAMES: u64 = 0x1_0000_0000;

/// An entry with a number that is made of its key. Most keys are ordered by their numbers alone.
#[derive(Drop)]
struct Entry<'a, R: Keyed> {
    hash: u64,
    row: &'a R,
}

/// Entries of one kind in the order of their keys. Keys with the same number are distinguished by their names, so no entries,
/// however crafted, make it slow.
#[derive(Drop)]
pub struct Index<'a, R: Keyed> {
    rows: &'a [R],
    entries: Vec<Entry<'a, R>>,
}

impl<'a, R: Keyed> Model for Index<'a, R> {
    ghost use Rattle.std.specs.Prelude.{List};
    ghost use Rattle.can_entries.specs.Indexes.{IsIndex};

    ghost Value = { List R };

    ghost view = { λ index. index.rows.now };

    ghost invariant = { λ index. IsIndex R.number_of R.signal_of index.entries.items index.rows.now };
}

#[tactic(auto, unfolding(crate::specs::inner::Hashes::name_hash, crate::specs::inner::Hashes::hashed_byte))]
fn name_hash(name: &[u8]) -> u32
    ensures { result ≡ name_hash name.now }
{
    let mut hash: u32 = 0;
    for byte in name {
        hash = hash.wrapping_mul(FACTOR).wrapping_add(u32::from(*byte));
    }
    hash
}

fn key_hash(number: u32, name: &[u8]) -> u64
    ensures { result ≡ key_hash number name.now }
{
    u64::from(number) * ABOVE_NAMES + u64::from(name_hash(name))
}

fn entry_of<'a, R: Keyed>(row: &'a R) -> Entry<'a, R>
    ensures row { result.row.now ≡ row.now }
    ensures hash { has_own_hash R.number_of R.signal_of result }
{
    Entry {
        hash: key_hash(row.number(), row.signal()),
        row,
    }
}

/// The order of two entries by their keys.
fn order_of<'a, R: Keyed>(first: &Entry<'a, R>, second: &Entry<'a, R>) -> Ordering
    ensures { result ≡ key_order (key_of R.signal_of first.now) (key_of R.signal_of second.now) }
{
    if first.hash == second.hash {
        first.row.signal().cmp(&second.row.signal())
    } else if first.hash < second.hash {
        Ordering::Less
    } else {
        Ordering::Greater
    }
}

/// Whether an entry comes before those of a key.
fn comes_before<'a, R: Keyed>(entry: &Entry<'a, R>, hash: u64, name: &[u8]) -> bool
    ensures { result ≡ is_lt (key_order (key_of R.signal_of entry.now) (hash, name.now)) }
{
    if entry.hash == hash {
        entry.row.signal().cmp(&name).is_lt()
    } else {
        entry.hash < hash
    }
}

fn has_key<'a, R: Keyed>(entry: &Entry<'a, R>, hash: u64, name: &[u8]) -> bool
    ensures { result ≡ is_eq (key_order (key_of R.signal_of entry.now) (hash, name.now)) }
{
    entry.hash == hash && same(entry.row.signal(), name)
}

fn entries_of<'a, R: Keyed>(alloc: Global, rows: &'a [R]) -> Result<Vec<Entry<'a, R>>, Memory>
    ensures rows { IfOk result (λ entries. map (λ (entry : PlainEntry R). entry.row.now) entries.items ≡ rows.now) }
    ensures hashes { IfOk result (λ entries. All (has_own_hash R.number_of R.signal_of) entries.items) }
{
    let mut entries = Vec::with_capacity(alloc, rows.len())?;
    for row in rows {
        entries.push(entry_of(row))?;
    }
    Ok(entries)
}

/// How many entries come before those of a key.
fn index_of<'a, R: Keyed>(entries: &[Entry<'a, R>], hash: u64, name: &[u8]) -> usize
    requires { AreInOrder R.signal_of entries.now }
    ensures bound { result ≤ length entries.now }
    ensures parted { IsPartitionPoint
        (λ (entry : PlainEntry R). is_lt (key_order (key_of R.signal_of entry) (hash, name.now)) ≡ true)
        (λ (entry : PlainEntry R). is_lt (key_order (key_of R.signal_of entry) (hash, name.now)) ≡ false) entries.now result }
{
    entries.partition_point(|entry| comes_before(entry, hash, name))
}

/// The first entry of a key, by numbers and names.
fn entry_by_name<'a, 'e, R: Keyed>(
    entries: &'e [Entry<'a, R>],
    hash: u64,
    name: &[u8],
) -> Option<&'e Entry<'a, R>>
    requires { AreInOrder R.signal_of entries.now }
    ensures { option_map (λ entry. entry.now) result ≡ find (λ (entry : PlainEntry R). is_eq (key_order (key_of R.signal_of entry)
        (hash, name.now))) entries.now }
{
    let index = index_of(entries, hash, name);
    let Some(entry) = entries.get(index) else {
        return None;
    };
    if has_key(entry, hash, name) {
        Some(entry)
    } else {
        None
    }
}

/// How many entries have lower numbers.
fn index_of_hash<'a, R: Keyed>(entries: &[Entry<'a, R>], hash: u64) -> usize
    requires { AreInOrder R.signal_of entries.now }
    ensures bound { result ≤ length entries.now }
    ensures parted { IsPartitionPoint (λ (entry : PlainEntry R). nat_lt entry.hash hash ≡ true)
        (λ (entry : PlainEntry R). nat_lt entry.hash hash ≡ false) entries.now result }
{
    entries.partition_point(|entry| entry.hash < hash)
}

/// The first entry of a key. It is found by its number alone if no other key has that number.
fn entry_at<'a, 'e, R: Keyed>(
    entries: &'e [Entry<'a, R>],
    hash: u64,
    name: &[u8],
) -> Option<&'e Entry<'a, R>>
    requires { AreInOrder R.signal_of entries.now }
    ensures { option_map (λ entry. entry.now) result ≡ find (λ (entry : PlainEntry R). is_eq (key_order (key_of R.signal_of entry)
        (hash, name.now))) entries.now }
{
    let index = index_of_hash(entries, hash);
    let Some(entry) = entries.get(index) else {
        return None;
    };
    if entry.hash != hash {
        return None;
    }
    if has_key(entry, hash, name) {
        return Some(entry);
    }
    entry_by_name(entries, hash, name)
}

impl<'a, R: Keyed> Index<'a, R> {
    /// The index of all entries.
    pub fn of(alloc: Global, rows: &'a [R]) -> Result<Index<'a, R>, Memory>
        ensures { IfOk result (λ index. index ≡ rows.now) }
    {
        let mut entries = entries_of(alloc, rows)?;
        entries.sort_by(|first, second| order_of(first, second))?;
        Ok(Index { rows, entries })
    }

    /// The first entry of a key.
    pub fn first(&self, number: u32, signal: &[u8]) -> Option<&'a R>
        ensures { option_map (λ row. row.now) result ≡ first_named R.signal_of signal.now (filter (λ row. R.number_of row == number)
            self.now) }
    {
        if self.entries.is_empty() {
            return None;
        }
        match entry_at(&self.entries, key_hash(number, signal), signal) {
            Some(entry) => Some(entry.row),
            None => None,
        }
    }
}
