//! Tables of value descriptions, float types and extended multiplexing.
ghost use Rattle.std.specs.Prelude.{◌≡◌, [], ◌∷◌, codes, IfOk, IsTrue};
ghost use Rattle.dbc_records.specs.Records.{ranges_fit};
ghost use Rattle.dbc_reader.specs.inner.Cursors.{left_at, with_word};
ghost use Rattle.dbc_reader.specs.inner.Readers.{GivesTo};
ghost use Rattle.dbc_reader.specs.inner.Tables.{table_at, values_at, colon_at, float_at, range_at, ranges_from, ranges_at};
ghost use Rattle.dbc_reader.specs.inner.Tables.{mux_at};

use crate::cursor::Cursor;
use crate::numerals::{entries, id, whole};
use crate::parts::{mark, name};
use crate::stopped::Stopped;
use dbc_records::{Entries, FloatRow, MuxRow, Numbers, Range, TableRow, ValueRow};
use dbc_values::List;
use std::alloc::Global;

/// Takes a named value table, after `VAL_TABLE_`.
#[tactic(auto, unfolding(crate::specs::inner::Tables::table_at, crate::specs::inner::Parts::word_at, crate::specs::inner::Readers::token_at, crate::specs::Classes::has_word))]
pub(crate) fn table(alloc: Global, at: &mut Cursor<'_>) -> Result<TableRow, Stopped>
    ensures { GivesTo result (left_at at.new) (table_at (with_word (codes "VAL_TABLE_") (left_at at.old))) }
{
    let title = name(alloc, at)?;
    let entries = entries(alloc, at)?;
    mark(at, b';')?;
    Ok(TableRow {
        name: title,
        entries,
    })
}

/// Takes the value descriptions of a signal, after `VAL_`.
#[tactic(auto, unfolding(crate::specs::inner::Tables::values_at, crate::specs::inner::Parts::word_at, crate::specs::inner::Readers::token_at, crate::specs::Classes::has_word))]
pub(crate) fn values(alloc: Global, at: &mut Cursor<'_>) -> Result<ValueRow, Stopped>
    ensures { GivesTo result (left_at at.new) (values_at (with_word (codes "VAL_") (left_at at.old))) }
{
    let number = id(at)?;
    let signal = name(alloc, at)?;
    let entries = entries(alloc, at)?;
    mark(at, b';')?;
    let entries = Entries::of(alloc, entries)?;
    Ok(ValueRow {
        number,
        signal,
        entries,
    })
}

// Takes a colon, if one is here.
#[tactic(auto, unfolding(crate::specs::inner::Tables::colon_at))]
fn colon(at: &mut Cursor<'_>) -> Result<(), Stopped>
    ensures { GivesTo result (left_at at.new) (colon_at (left_at at.old)) }
{
    if at.starts_mark(b':') {
        mark(at, b':')?;
    }
    Ok(())
}

/// Takes the float type of a signal, after `SIG_VALTYPE_`.
#[tactic(auto, unfolding(crate::specs::inner::Tables::float_at, crate::specs::inner::Parts::word_at, crate::specs::inner::Readers::token_at, crate::specs::Classes::has_word))]
pub(crate) fn float(alloc: Global, at: &mut Cursor<'_>) -> Result<FloatRow, Stopped>
    ensures { GivesTo result (left_at at.new) (float_at (with_word (codes "SIG_VALTYPE_") (left_at at.old))) }
{
    let number = id(at)?;
    let signal = name(alloc, at)?;
    colon(at)?;
    let kind = whole(at, 0, u64::from(FloatRow::MAX_KIND))?;
    mark(at, b';')?;
    Ok(FloatRow {
        number,
        signal,
        kind: kind as u8,
    })
}

#[tactic(auto, unfolding(crate::specs::inner::Tables::range_at))]
fn range(at: &mut Cursor<'_>) -> Result<Range, Stopped>
    ensures { GivesTo result (left_at at.new) (range_at (left_at at.old)) }
{
    let first = whole(at, 0, u64::MAX)?;
    mark(at, b'-')?;
    let last = whole(at, 0, u64::MAX)?;
    Ok(Range { first, last })
}

// The first range and all further ones, which are here after commas, with memory for this many at first.
#[tactic(auto, using(crate::proofs::Rounds::Lists::ranges_on, crate::proofs::Rounds::Lists::ranges_fail_first, crate::proofs::Rounds::Lists::ranges_fail, crate::proofs::Rounds::Lists::ranges_end, crate::proofs::Rounds::Lists::ranges_less))]
fn ranges_after(
    alloc: Global,
    at: &mut Cursor<'_>,
    first: Range,
    count: usize,
) -> Result<List<Range>, Stopped>
    ensures { GivesTo result (left_at at.new) (ranges_from (first ∷ []) (left_at at.old)) }
{
    let mut ranges = List::with_capacity(alloc, count)?;
    ranges.push(first)?;
    'further: while at.starts_mark(b',') {
        mark(at, b',')?;
        let found = range(at)?;
        ranges.push(found)?;
    }
    ranges.shrink_to_fit();
    Ok(ranges)
}

// Takes the ranges of a multiplexor (switch), of which there is at least one.
#[tactic(auto, using(crate::proofs::Rounds::Lists::some_ranges), unfolding(crate::specs::inner::Tables::ranges_at))]
fn ranges(alloc: Global, at: &mut Cursor<'_>) -> Result<List<Range>, Stopped>
    ensures value { GivesTo result (left_at at.new) (ranges_at (left_at at.old)) }
    ensures fits { IfOk result (λ ranges. IsTrue (ranges_fit ranges)) }
{
    let list = *at;
    let first = range(at)?;
    ranges_after(alloc, at, first, list.items_ahead())
}

/// Takes an entry of extended multiplexing, after `SG_MUL_VAL_`.
#[tactic(auto, unfolding(crate::specs::inner::Tables::mux_at, crate::specs::inner::Parts::word_at, crate::specs::inner::Readers::token_at, crate::specs::Classes::has_word))]
pub(crate) fn mux(alloc: Global, at: &mut Cursor<'_>) -> Result<MuxRow, Stopped>
    ensures { GivesTo result (left_at at.new) (mux_at (with_word (codes "SG_MUL_VAL_") (left_at at.old))) }
{
    let number = id(at)?;
    let signal = name(alloc, at)?;
    let switch = name(alloc, at)?;
    let ranges = ranges(alloc, at)?;
    mark(at, b';')?;
    let ranges = Numbers::of(alloc, ranges)?;
    Ok(MuxRow {
        number,
        signal,
        switch,
        ranges,
    })
}
