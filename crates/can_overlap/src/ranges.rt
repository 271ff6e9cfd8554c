//! Ranges in order, and whether two lists of them have a number in common.
ghost use Rattle.std.specs.Prelude.{◌≡◌, IfOk, nat_le};
ghost use Rattle.can_overlap.specs.Overlaps.{ranges_meet};
ghost use Rattle.can_overlap.specs.inner.Ordered.{holds_some, IsOrdered, AreWhole, StandFor};

use dbc_records::Range;
use dbc_values::Memory;
use std::alloc::Global;

fn holds_some(range: &Range) -> bool
    ensures { result ≡ holds_some range.now }
{
    range.first <= range.last
}

// The ranges that hold a number.
fn whole(alloc: Global, ranges: &[Range]) -> Result<Vec<Range>, Memory>
    ensures { IfOk result (λ whole. AreWhole whole.items ranges.now) }
{
    let mut whole = Vec::new(alloc);
    for range in ranges {
        if holds_some(range) {
            whole.push(*range)?;
        }
    }
    Ok(whole)
}

/// The ranges that hold a number, by their first numbers.
pub(crate) fn in_order(alloc: Global, ranges: &[Range]) -> Result<Vec<Range>, Memory>
    ensures { IfOk result (λ ordered. StandFor ordered.items ranges.now) }
{
    let mut ordered = whole(alloc, ranges)?;
    ordered.sort_by_key(|range| range.first)?;
    Ok(ordered)
}

/// Whether ordered ranges have a number in common. It visits each range of both once.
pub(crate) fn meet(first: &[Range], second: &[Range]) -> bool
    requires first { IsOrdered first.now }
    requires second { IsOrdered second.now }
    ensures { result ≡ ranges_meet first.now second.now }
{
    let mut at = 0;
    let mut other = 0;
    while at < first.len() && other < second.len() {
        let a = first[at];
        let b = second[other];
        if a.last < b.first {
            at += 1;
        } else if b.last < a.first {
            other += 1;
        } else {
            return true;
        }
    }
    false
}
