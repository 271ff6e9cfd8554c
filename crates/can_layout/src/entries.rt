//! Value descriptions found by their raw values.
ghost use Rattle.std.specs.Prelude.{◌≡◌, ◌≤◌, ℤ, true, false, IsTrue, OnOk, IfOk, IfSome, Some, None, length, option_map};
ghost use Rattle.std.specs.Prelude.{slice_get, if◌then◌else◌};
ghost use Rattle.std.specs.BTreeMap.{get};
ghost use Rattle.std.specs.List.Sorted.{IsPartitionPoint};
ghost use Rattle.std.specs.Option.{option_or};
ghost use Rattle.std.specs.Ordering.{int_eq, int_cmp};
ghost use Rattle.dbc_records.specs.Orders.{precedes, are_in_order};
ghost use Rattle.can_layout.specs.Decoders.{first_entry, IsEntryIndex};
ghost use Rattle.can_layout.specs.inner.Searches.{IsEntrySearch};

use crate::naming::first_entry;
use dbc_records::{Entries, Entry, EntryOrder};
use dbc_values::Memory;
use std::alloc::Global;
use std::collections::BTreeMap;

// Up to this many entries are searched one by one.
const LINEAR_SEARCH_LIMIT: usize = 16;

// For each raw value the index of the first entry that has it.
type Indexes = BTreeMap<i128, usize>;

/// How entries are found by their raw values, if there are many.
#[derive(Drop)]
pub(crate) enum EntrySearch {
    /// By binary search: the raw values are ordered.
    Ordered(EntryOrder),
    /// By their indexes.
    Indexed(Indexes),
}

// Records the index of an entry for its raw value, unless one is there.
fn keep_first(indexes: &mut Indexes, entry: &Entry, index: usize) -> Result<(), Memory>
    ensures { OnOk result ((raw : ℤ) → get int_cmp indexes.new raw ≡ option_or (get int_cmp indexes.old raw)
        (if int_eq entry.now.number raw then Some index else None)) }
{
    indexes.entry(entry.number)?.or_insert(index);
    Ok(())
}

fn indexes_of(alloc: Global, entries: &[Entry]) -> Result<Indexes, Memory>
    ensures { IfOk result (λ indexes. IsEntryIndex indexes entries.now) }
{
    let mut indexes: Indexes = BTreeMap::new(alloc);
    for (index, entry) in entries.iter().enumerate() {
        keep_first(&mut indexes, entry, index)?;
    }
    Ok(indexes)
}

/// How entries are found by their raw values, if there are many.
pub(crate) fn search_of_many(
    alloc: Global,
    entries: &Entries,
) -> Result<Option<EntrySearch>, Memory>
    ensures { IfOk result (λ search. IfSome search (λ search. IsEntrySearch search entries.now)) }
{
    if entries.as_slice().len() <= LINEAR_SEARCH_LIMIT {
        return Ok(None);
    }
    if let Some(order) = entries.order() {
        return Ok(Some(EntrySearch::Ordered(order)));
    }
    let indexes = indexes_of(alloc, entries.as_slice())?;
    Ok(Some(EntrySearch::Indexed(indexes)))
}

// How many entries precede a raw value in their order.
fn index_of(order: EntryOrder, entries: &[Entry], raw: i128) -> usize
    requires { IsTrue (are_in_order order entries.now) }
    ensures bound { result ≤ length entries.now }
    ensures parted { IsPartitionPoint (λ entry. precedes order entry.number raw ≡ true)
        (λ entry. precedes order entry.number raw ≡ false) entries.now result }
{
    match order {
        EntryOrder::Rising => entries.partition_point(|entry| entry.number < raw),
        EntryOrder::Falling => entries.partition_point(|entry| entry.number > raw),
    }
}

fn has_number(entry: &Entry, raw: i128) -> bool
    ensures { result ≡ int_eq entry.now.number raw }
{
    entry.number == raw
}

// The entry for a raw value, by the order of the entries.
fn ordered_entry(order: EntryOrder, entries: &[Entry], raw: i128) -> Option<&Entry>
    requires { IsTrue (are_in_order order entries.now) }
    ensures { option_map (λ entry. entry.now) result ≡ first_entry raw entries.now }
{
    let index = index_of(order, entries, raw);
    let Some(entry) = entries.get(index) else {
        return None;
    };
    if has_number(entry, raw) {
        Some(entry)
    } else {
        None
    }
}

fn index_at(indexes: &Indexes, raw: i128) -> Option<usize>
    ensures { result ≡ get int_cmp indexes.now raw }
{
    indexes.get(&raw).copied()
}

fn entry_at(entries: &[Entry], index: usize) -> Option<&Entry>
    ensures { option_map (λ entry. entry.now) result ≡ slice_get entries.now index }
{
    entries.get(index)
}

// The first entry for a raw value, by the indexes.
fn indexed_entry<'a>(indexes: &Indexes, entries: &'a [Entry], raw: i128) -> Option<&'a Entry>
    requires { IsEntryIndex indexes.now entries.now }
    ensures { option_map (λ entry. entry.now) result ≡ first_entry raw entries.now }
{
    match index_at(indexes, raw) {
        Some(index) => entry_at(entries, index),
        None => None,
    }
}

// The first entry for a raw value, if there are many.
fn searched_entry<'a>(search: &EntrySearch, entries: &'a [Entry], raw: i128) -> Option<&'a Entry>
    requires { IsEntrySearch search.now entries.now }
    ensures { option_map (λ entry. entry.now) result ≡ first_entry raw entries.now }
{
    match search {
        EntrySearch::Ordered(order) => ordered_entry(*order, entries, raw),
        EntrySearch::Indexed(indexes) => indexed_entry(indexes, entries, raw),
    }
}

/// The first entry for a raw value. If there are many entries, it takes time logarithmic in their count.
pub(crate) fn entry_of<'a>(
    search: &Option<EntrySearch>,
    entries: &'a [Entry],
    raw: i128,
) -> Option<&'a Entry>
    requires { IfSome search.now (λ search. IsEntrySearch search entries.now) }
    ensures { option_map (λ entry. entry.now) result ≡ first_entry raw entries.now }
{
    match search {
        Some(search) => searched_entry(search, entries, raw),
        None => first_entry(entries, raw),
    }
}
