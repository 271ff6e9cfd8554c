//! Links with their ranges in order, for comparisons.
ghost use Rattle.std.specs.Prelude.{◌≡◌, IfOk};
ghost use Rattle.can_overlap.specs.Overlaps.{agree};

use crate::ranges::{in_order, meet};
use can_entries::Link;
use dbc_records::Range;
use dbc_values::Memory;
use std::alloc::Global;
use std::marker::Model;

/// A link, with its ranges in order.
#[derive(Drop)]
pub(crate) struct SortedLink<'a> {
    link: &'a Link,
    ranges: Vec<Range>,
}

impl<'a> Model for SortedLink<'a> {
    ghost use Rattle.can_entries.specs.Links.{Link as Plain};
    ghost use Rattle.can_overlap.specs.inner.Ordered.{StandFor};

    ghost Value = { Plain };

    ghost view = { λ sorted_link. sorted_link.link.now };

    ghost invariant = { λ sorted_link. StandFor sorted_link.ranges.items sorted_link.link.now.ranges };
}

impl<'a> SortedLink<'a> {
    /// The link, with its ranges in order.
    pub(crate) fn of(alloc: Global, link: &'a Link) -> Result<SortedLink<'a>, Memory>
        ensures { IfOk result (λ sorted_link. sorted_link ≡ link.now) }
    {
        let ranges = in_order(alloc, link.ranges())?;
        Ok(SortedLink { link, ranges })
    }

    /// The link itself.
    pub(crate) fn link(&self) -> &Link
        ensures { result.now ≡ self.now }
    {
        self.link
    }

    /// The index of the multiplexor.
    pub(crate) fn switch(&self) -> usize
        ensures { result ≡ self.now.switch }
    {
        let link = self.link;
        link.switch
    }

    /// Whether the links are of different multiplexors (switches), or have a raw value in common.
    pub(crate) fn agrees(&self, other: &SortedLink<'_>) -> bool
        ensures { result ≡ agree self.now other.now }
    {
        self.switch() != other.switch() || meet(&self.ranges, &other.ranges)
    }
}
