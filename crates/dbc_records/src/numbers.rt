//! The raw values of a multiplexor (switch).
ghost use Rattle.std.specs.Prelude.{◌≡◌, IfOk};
ghost use Rattle.std.specs.List.{list_any};
ghost use Rattle.dbc_records.specs.Ranges.{in_range, is_empty_range};

use crate::mux_row::Range;
use crate::range_index::{is_in, range_index};
use dbc_values::{Checked, Copied, List, Memory};
use std::alloc::Global;
use std::marker::Model;
use std::rc::Rc;

// Ranges, whether one of them is empty, and how numbers are found in them.
#[derive(Drop)]
struct Found {
    ranges: List<Range>,
    has_empty: bool,
    // The index that finds numbers if there are many ranges.
    index: Option<Vec<Range>>,
}

impl Model for Found {
    ghost use Rattle.std.specs.Prelude.{◌≡◌, List as Items, IfSome};
    ghost use Rattle.std.specs.List.{list_any};
    ghost use Rattle.dbc_records.specs.declared.mux_row.Range.{Range as PlainRange};
    ghost use Rattle.dbc_records.specs.Ranges.{is_empty_range};
    ghost use Rattle.dbc_records.specs.inner.RangeIndexes.{IsRangeIndex};

    ghost Value = { Items PlainRange };

    ghost view = { λ a. a.ranges };

    ghost invariant = { λ a. (a.has_empty ≡ list_any is_empty_range a.ranges)
        × IfSome a.index (λ index. IsRangeIndex index.items a.ranges) };
}

fn has_empty_range(ranges: &[Range]) -> bool
    ensures { result ≡ list_any is_empty_range ranges.now }
{
    ranges.iter().any(|range| range.last < range.first)
}

impl Found {
    fn of(alloc: Global, ranges: List<Range>) -> Result<Found, Memory>
        ensures { IfOk result (λ found. found ≡ ranges) }
    {
        let has_empty = has_empty_range(ranges.as_slice());
        let index = range_index(alloc, ranges.as_slice())?;
        Ok(Found {
            ranges,
            has_empty,
            index,
        })
    }
}

/// Raw values of a multiplexor, as ranges. Copies share them.
#[derive(Drop)]
pub struct Numbers {
    found: Rc<Found>,
}

impl Model for Numbers {
    ghost use Rattle.std.specs.Prelude.{List as Items, All};
    ghost use Rattle.dbc_records.specs.Records.{IsRange};
    ghost use Rattle.dbc_records.specs.declared.mux_row.Range.{Range as PlainRange};

    ghost Value = { Items PlainRange };

    ghost view = { λ a. a.found.value };

    ghost invariant = { λ a. All IsRange a.found.value };
}

impl Checked for Numbers {
    ghost use Rattle.std.specs.Prelude.{All};
    ghost use Rattle.dbc_records.specs.Records.{IsRange};

    ghost IsValid = { All IsRange };
}

impl Copied for Numbers {
    fn copy(&self) -> Result<Numbers, Memory> {
        let found = self.found.clone()?;
        Ok(Numbers { found })
    }
}

fn in_range(range: Range, raw: u64) -> bool
    ensures { result ≡ in_range raw range }
{
    range.first <= raw && raw <= range.last
}

fn in_ranges(ranges: &[Range], raw: u64) -> bool
    ensures { result ≡ list_any (in_range raw) ranges.now }
{
    ranges.iter().any(|range| in_range(*range, raw))
}

impl Numbers {
    /// The numbers of these ranges.
    pub fn of(alloc: Global, ranges: List<Range>) -> Result<Numbers, Memory>
        ensures { IfOk result (λ numbers. numbers ≡ ranges) }
    {
        let found = Rc::new(alloc, Found::of(alloc, ranges)?)?;
        Ok(Numbers { found })
    }

    /// The ranges, in the order of the text.
    pub fn as_slice(&self) -> &[Range]
        ensures { result.now ≡ self.now }
    {
        self.found.as_ref().ranges.as_slice()
    }

    /// Whether one of the ranges holds no number. It takes constant time.
    pub fn has_empty_range(&self) -> bool
        ensures { result ≡ list_any is_empty_range self.now }
    {
        self.found.as_ref().has_empty
    }

    /// Whether a number is in one of them. If there are many ranges, this takes time logarithmic in their count.
    pub fn has(&self, raw: u64) -> bool
        ensures { result ≡ list_any (in_range raw) self.now }
    {
        let found = self.found.as_ref();
        match &found.index {
            Some(index) => is_in(index.as_slice(), raw),
            None => in_ranges(found.ranges.as_slice(), raw),
        }
    }
}
