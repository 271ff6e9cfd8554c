//! Text after numbers, or in their place: units and the names of raw values.
ghost use Rattle.std.specs.Prelude.{◌≡◌, ◌++◌, OnOk, IfOk, IfSome, option_map};
ghost use Rattle.can_layout.specs.Decoders.{unit_text, first_entry, name_of, AreNames};
ghost use Rattle.can_layout.specs.inner.Searches.{IsEntrySearch};

use crate::entries::{EntrySearch, entry_of};
use dbc_records::Entry;
use dbc_text_buffer::{ReadyText, TextBuffer, push_bytes, push_shown};
use dbc_values::Memory;

// At most this many raw values have cached names.
const MAX_CACHED_NAMES: usize = 64;

// A blank and a unit, if there is one.
#[tactic(auto, using(crate::proofs::Pushing::pushed_then))]
fn push_unit(text: &mut TextBuffer, unit: &[u8]) -> Result<(), Memory>
    ensures { OnOk result (text.new.items ≡ text.old.items ++ unit_text unit.now) }
{
    match unit {
        [] => Ok(()),
        [..] => {
            push_bytes(text, b" ")?;
            push_shown(text, unit)
        }
    }
}

/// The text of a unit, cached.
pub(crate) fn ready_unit(buffer: &mut TextBuffer, unit: &[u8]) -> Result<ReadyText, Memory>
    ensures { IfOk result (λ ready. ready ≡ unit_text unit.now) }
{
    buffer.clear();
    push_unit(buffer, unit)?;
    ReadyText::of(buffer.allocator(), buffer.as_slice())
}

/// The first entry for a raw value.
pub fn first_entry(entries: &[Entry], raw: i128) -> Option<&Entry>
    ensures { option_map (λ entry. entry.now) result ≡ first_entry raw entries.now }
{
    for entry in entries {
        if entry.number == raw {
            return Some(entry);
        }
    }
    None
}

// The name of a raw value, cached.
fn ready_name(
    buffer: &mut TextBuffer,
    search: &Option<EntrySearch>,
    entries: &[Entry],
    raw: i128,
) -> Result<Option<ReadyText>, Memory>
    requires { IfSome search.now (λ search. IsEntrySearch search entries.now) }
    ensures { IfOk result (λ name. name ≡ name_of raw entries.now) }
{
    let Some(entry) = entry_of(search, entries, raw) else {
        return Ok(None);
    };
    buffer.clear();
    push_shown(buffer, entry.text.as_bytes())?;
    let ready = ReadyText::of(buffer.allocator(), buffer.as_slice())?;
    Ok(Some(ready))
}

/// The names of the first raw values, cached. There are as many of them as entries, but only a few at most.
pub(crate) fn ready_names(
    buffer: &mut TextBuffer,
    search: &Option<EntrySearch>,
    entries: &[Entry],
) -> Result<Vec<Option<ReadyText>>, Memory>
    requires { IfSome search.now (λ search. IsEntrySearch search entries.now) }
    ensures { IfOk result (λ names. AreNames entries.now names.items) }
{
    let count = entries.len().min(MAX_CACHED_NAMES);
    let mut names = Vec::with_capacity(buffer.allocator(), count)?;
    for raw in 0..count as u8 {
        names.push(ready_name(buffer, search, entries, i128::from(raw))?)?;
    }
    Ok(names)
}
