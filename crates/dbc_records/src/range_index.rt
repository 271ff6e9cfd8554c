//! Many ranges, in which a number is found without visiting all.
ghost use Rattle.std.specs.Prelude.{◌≡◌, Bool, true, false, nat_le, max, ◌≤◌, length, IfOk, IfSome};
ghost use Rattle.std.specs.List.{list_any};
ghost use Rattle.std.specs.List.Sorted.{IsNonDecreasingBy, IsPartitionPoint};
ghost use Rattle.dbc_records.specs.declared.mux_row.Range.{Range as PlainRange};
ghost use Rattle.dbc_records.specs.Ranges.{in_range};
ghost use Rattle.dbc_records.specs.inner.RangeIndexes.{reaching, IsRangeIndex};

use crate::mux_row::Range;
use dbc_values::Memory;
use std::alloc::Global;

// Up to this many ranges are searched one by one.
const LINEAR_SEARCH_LIMIT: usize = 16;

fn greater(a: u64, b: u64) -> u64
    ensures { result ≡ max a b }
{
    a.max(b)
}

// Each range with the greatest last number among the ranges up to it.
fn reaching(alloc: Global, ordered: &[Range]) -> Result<Vec<Range>, Memory>
    ensures { IfOk result (λ index. index.items ≡ reaching 0 ordered.now) }
{
    let mut index = Vec::with_capacity(alloc, ordered.len())?;
    let mut most = 0;
    for range in ordered {
        most = greater(most, range.last);
        index.push(Range {
            first: range.first,
            last: most,
        })?;
    }
    Ok(index)
}

fn in_order(alloc: Global, ranges: &[Range]) -> Result<Vec<Range>, Memory>
    ensures firsts { IfOk result (λ ordered. IsNonDecreasingBy (λ (range : PlainRange). range.first) ordered.items) }
    ensures same { IfOk result (λ ordered. (test : PlainRange → Bool) → list_any test ordered.items ≡ list_any test ranges.now) }
{
    let mut ordered = Vec::from_slice(alloc, ranges)?;
    ordered.sort_by_key(|range| range.first)?;
    Ok(ordered)
}

/// The ranges in the order of their first numbers, if there are many.
pub(crate) fn range_index(alloc: Global, ranges: &[Range]) -> Result<Option<Vec<Range>>, Memory>
    ensures { IfOk result (λ index. IfSome index (λ index. IsRangeIndex index.items ranges.now)) }
{
    if ranges.len() <= LINEAR_SEARCH_LIMIT {
        return Ok(None);
    }
    let ordered = in_order(alloc, ranges)?;
    let index = reaching(alloc, ordered.as_slice())?;
    Ok(Some(index))
}

// How many ranges begin at a number or before it, if the ranges are in order.
fn begun(index: &[Range], raw: u64) -> usize
    requires { IsNonDecreasingBy (λ (range : PlainRange). range.first) index.now }
    ensures bound { result ≤ length index.now }
    ensures parted { IsPartitionPoint (λ (range : PlainRange). nat_le range.first raw ≡ true)
        (λ (range : PlainRange). nat_le range.first raw ≡ false) index.now result }
{
    index.partition_point(|range| range.first <= raw)
}

/// Whether a number is in one of the ranges. It takes time logarithmic in their count.
pub(crate) fn is_in(index: &[Range], raw: u64) -> bool
    requires firsts { IsNonDecreasingBy (λ (range : PlainRange). range.first) index.now }
    requires lasts { IsNonDecreasingBy (λ (range : PlainRange). range.last) index.now }
    ensures { result ≡ list_any (in_range raw) index.now }
{
    let begun = begun(index, raw);
    begun > 0 && raw <= index[begun - 1].last
}
