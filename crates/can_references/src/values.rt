//! The value descriptions of one `VAL_` entry: which a signal never has, and which repeat a raw value.
ghost use Rattle.std.specs.Prelude.{◌≡◌, false, ◌-◌, ◌∷◌, ◌++◌, [], OnOk, length, slice_get, option_map};
ghost use Rattle.can_references.specs.RawRanges.{numbers_out_of_range, has_at, has_both_ends};
ghost use Rattle.can_references.specs.Values.{number_repeated, numbers_repeated, may_repeat};

use crate::integers::Integers;
use crate::raw_range::is_out_of_range;
use crate::spans::push_each;
use dbc_records::{Entries, Entry, Signal};
use dbc_values::Memory;

// Whether a signal can have the value of an entry, if there is one.
fn has_at(signal: &Signal, entry: Option<&Entry>) -> bool
    ensures { result ≡ has_at signal.now (option_map (λ entry. entry.now) entry.entry) }
{
    match entry {
        Some(entry) => !is_out_of_range(signal, entry),
        None => true,
    }
}

fn first_of(entries: &[Entry]) -> Option<&Entry>
    ensures { option_map (λ entry. entry.now) result ≡ slice_get entries.now 0 }
{
    entries.first()
}

fn last_of(entries: &[Entry]) -> Option<&Entry>
    ensures { option_map (λ entry. entry.now) result ≡ slice_get entries.now (length entries.now - 1) }
{
    entries.last()
}

// Whether a signal can have the first and the last of some entries.
fn has_both_ends(signal: &Signal, entries: &[Entry]) -> bool
    ensures { result ≡ has_both_ends signal.now entries.now }
{
    has_at(signal, first_of(entries)) && has_at(signal, last_of(entries))
}

/// Adds the raw values of the entries that a signal never has. There are none if it can have both ends of ordered entries,
/// as it mostly can.
pub(crate) fn push_out_of_range(
    found: &mut Vec<i128>,
    signal: &Signal,
    entries: &Entries,
) -> Result<(), Memory>
    ensures { OnOk result (found.new.items ≡ found.old.items ++ numbers_out_of_range signal.now entries.now) }
{
    match entries.order() {
        Some(_) if has_both_ends(signal, entries.as_slice()) => Ok(()),
        _ => push_each(found, signal, entries.as_slice()),
    }
}

// Adds the raw value of an entry if it occurred earlier, and adds it to those seen.
fn push_entry(found: &mut Vec<i128>, seen: &mut Integers, entry: &Entry) -> Result<(), Memory>
    ensures found { OnOk result (found.new.items ≡ found.old.items ++ number_repeated seen.old entry.now.number) }
    ensures seen { OnOk result (seen.new ≡ seen.old ++ entry.now.number ∷ []) }
{
    if !seen.add(entry.number)? {
        found.push(entry.number)?;
    }
    Ok(())
}

// Adds the raw values that occurred earlier, for entries in any order.
fn push_repeated_unordered(found: &mut Vec<i128>, entries: &[Entry]) -> Result<(), Memory>
    ensures { OnOk result (found.new.items ≡ found.old.items ++ numbers_repeated entries.now) }
{
    let mut seen = Integers::new(*found.allocator());
    for entry in entries {
        push_entry(found, &mut seen, entry)?;
    }
    Ok(())
}

/// Whether one of the raw values may be repeated: they neither rise nor fall.
pub(crate) fn may_repeat(entries: &Entries) -> bool
    ensures flag { result ≡ may_repeat entries.now }
    ensures none { result ≡ false → numbers_repeated entries.now ≡ [] }
{
    match entries.order() {
        Some(_) => false,
        None => true,
    }
}

/// Adds the raw values that occurred earlier. There are none if the raw values rise or fall, as they mostly do.
pub(crate) fn push_repeated(found: &mut Vec<i128>, entries: &Entries) -> Result<(), Memory>
    ensures { OnOk result (found.new.items ≡ found.old.items ++ numbers_repeated entries.now) }
{
    match entries.order() {
        Some(_) => Ok(()),
        None => push_repeated_unordered(found, entries.as_slice()),
    }
}
