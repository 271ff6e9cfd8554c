//! The `VAL_` entries with many value descriptions that several messages have, found by their keys.
ghost use Rattle.std.specs.Prelude.{◌≡◌, ℕ, List, IsTrue, IfOk, IfSome, OnOk, Some, None, if◌then◌else◌};
ghost use Rattle.std.specs.List.{find};
ghost use Rattle.std.specs.Option.{option_map, option_or};
ghost use Rattle.dbc_records.specs.Records.{ValueRow as Row};
ghost use Rattle.can_references.specs.Values.{has_many};
ghost use Rattle.can_references.specs.inner.ManyRows.{is_of, is_wanted, is_kept_number, is_kept, kept_at, AreKept};

use crate::many_values::ManyValues;
use crate::numbers::Numbers;
use dbc_records::ValueRow;
use dbc_values::Memory;
use std::alloc::Global;
use std::collections::BTreeMap;
use std::marker::Model;

/// Up to this many value descriptions of a `VAL_` entry are visited for each message.
pub(crate) const LINEAR_SEARCH_LIMIT: usize = 64;

// A message ID, and the name of a signal.
type Key<'a> = (u32, &'a [u8]);

// Whether a CAN identifier is among the wanted ones, if not all are wanted.
fn is_wanted(wanted: Option<&[u32]>, number: u32) -> bool
    ensures { result ≡ is_wanted (option_map (λ numbers. numbers.now) wanted.entry) number }
{
    match wanted {
        Some(numbers) => numbers.contains(&number),
        None => true,
    }
}

// Whether the findings for a `VAL_` entry are cached: it has many value descriptions, several messages have its CAN identifier,
// and that is wanted.
fn is_kept(numbers: &Numbers, wanted: Option<&[u32]>, row: &ValueRow) -> bool
    ensures { result ≡ is_kept (is_kept_number numbers.now (option_map (λ numbers. numbers.now) wanted.entry)) row.now }
{
    row.entries.as_slice().len() > LINEAR_SEARCH_LIMIT
        && numbers.is_shared(row.number)
        && is_wanted(wanted, row.number)
}

// Caches the findings for an entry, if nothing is cached for its key.
fn keep_row<'a>(
    alloc: Global,
    by_key: &mut BTreeMap<Key<'a>, ManyValues<'a>>,
    row: &'a ValueRow,
) -> Result<(), Memory>
    ensures { OnOk result ((number : ℕ) (name : List ℕ) → kept_at number name by_key.new ≡ option_or
        (kept_at number name by_key.old) (if is_of number name row.now then Some row.now else None)) }
{
    let key = (row.number, row.signal.as_bytes());
    if by_key.contains_key(&key) {
        return Ok(());
    }
    let values = ManyValues::of(alloc, row)?;
    by_key.insert(key, values)?;
    Ok(())
}

// The cached findings for entries: of those to be cached, the first of each key.
fn kept_rows<'a>(
    alloc: Global,
    numbers: &Numbers,
    wanted: Option<&[u32]>,
    rows: &'a [ValueRow],
) -> Result<BTreeMap<Key<'a>, ManyValues<'a>>, Memory>
    ensures { IfOk result (λ by_key. AreKept (is_kept_number numbers.now (option_map (λ numbers. numbers.now) wanted.entry)) by_key
        rows.now) }
{
    let mut by_key: BTreeMap<Key<'a>, ManyValues<'a>> = BTreeMap::new(alloc);
    for row in rows {
        if is_kept(numbers, wanted, row) {
            keep_row(alloc, &mut by_key, row)?;
        }
    }
    Ok(by_key)
}

/// `VAL_` entries, and the findings for some of those that have many value descriptions. Contracts see all entries.
#[derive(Drop)]
pub(crate) struct ManyRows<'a> {
    rows: &'a [ValueRow],
    by_key: BTreeMap<Key<'a>, ManyValues<'a>>,
}

impl<'a> Model for ManyRows<'a> {
    ghost use Rattle.std.specs.Prelude.{ℕ, Bool, List};
    ghost use Rattle.dbc_records.specs.Records.{ValueRow as Row};
    ghost use Rattle.can_references.specs.inner.ManyRows.{AreKept};

    ghost Value = { List Row };

    ghost view = { λ a. a.rows.now };

    ghost invariant = { λ a. (test : ℕ → Bool) × AreKept test a.by_key a.rows.now };
}

impl<'a> ManyRows<'a> {
    /// These entries. Findings are cached for those with many value descriptions whose CAN identifier occurs at least twice among
    /// these and is wanted.
    pub(crate) fn of(
        alloc: Global,
        numbers: &Numbers,
        wanted: Option<&[u32]>,
        rows: &'a [ValueRow],
    ) -> Result<ManyRows<'a>, Memory>
        ensures { IfOk result (λ made. made ≡ rows.now) }
    {
        let by_key = kept_rows(alloc, numbers, wanted, rows)?;
        Ok(ManyRows { rows, by_key })
    }

    /// Whether nothing is cached.
    pub(crate) fn is_empty(&self) -> bool {
        self.by_key.is_empty()
    }

    /// What is cached for a key. If the key's first entry has many value descriptions, it is found for that one.
    pub(crate) fn kept(&self, number: u32, name: &'a [u8]) -> Option<&ManyValues<'a>>
        ensures { IfSome result (λ values. (row : Row) → find (is_of number name.now) self.now ≡ Some row → IsTrue (has_many row)
            → values.now ≡ row) }
    {
        self.by_key.get(&(number, name))
    }
}
