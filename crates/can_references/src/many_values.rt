//! `VAL_` entries with many value descriptions, whose findings are computed once, however many messages have them.
ghost use Rattle.std.specs.Prelude.{◌≡◌, false, [], ◌++◌, IfOk, OnOk};
ghost use Rattle.can_references.specs.RawRanges.{numbers_out_of_range};
ghost use Rattle.can_references.specs.Values.{numbers_repeated, may_repeat};

use crate::spans::{Spans, spans_of};
use crate::values::{may_repeat, push_repeated};
use dbc_records::{Entries, Signal, ValueRow};
use dbc_values::Memory;
use std::alloc::Global;
use std::marker::Model;

// The raw values that occurred earlier.
fn repeated_of(alloc: Global, entries: &Entries) -> Result<Vec<i128>, Memory>
    ensures { IfOk result (λ repeated. repeated.items ≡ numbers_repeated entries.now) }
{
    let mut repeated = Vec::new(alloc);
    push_repeated(&mut repeated, entries)?;
    Ok(repeated)
}

/// A `VAL_` entry with many value descriptions: the ones that a signal never has are found without visiting all, and those that
/// repeat a raw value are found once. Contracts see the entry.
#[derive(Drop)]
pub(crate) struct ManyValues<'a> {
    row: &'a ValueRow,
    spans: Spans,
    repeated: Vec<i128>,
}

impl<'a> Model for ManyValues<'a> {
    ghost use Rattle.std.specs.Prelude.{◌≡◌};
    ghost use Rattle.dbc_records.specs.Records.{ValueRow as Row};
    ghost use Rattle.can_references.specs.inner.Spans.{AreSpans};
    ghost use Rattle.can_references.specs.Values.{numbers_repeated};

    ghost Value = { Row };

    ghost view = { λ a. a.row.now };

    ghost invariant = { λ a. AreSpans a.spans a.row.now.entries × (a.repeated.items ≡ numbers_repeated a.row.now.entries) };
}

impl<'a> ManyValues<'a> {
    /// The value descriptions of an entry.
    pub(crate) fn of(alloc: Global, row: &'a ValueRow) -> Result<ManyValues<'a>, Memory>
        ensures { IfOk result (λ made. made ≡ row.now) }
    {
        let spans = spans_of(alloc, row.entries.as_slice())?;
        let repeated = repeated_of(alloc, &row.entries)?;
        Ok(ManyValues {
            row,
            spans,
            repeated,
        })
    }

    /// Adds the raw values of those that a signal never has.
    pub(crate) fn push_out_of_range(
        &self,
        found: &mut Vec<i128>,
        signal: &Signal,
    ) -> Result<(), Memory>
        ensures { OnOk result (found.new.items ≡ found.old.items ++ numbers_out_of_range signal.now self.now.entries) }
    {
        let row = self.row;
        self.spans
            .push_out_of_range(found, signal, row.entries.as_slice())
    }

    /// Whether one of the raw values may be repeated.
    pub(crate) fn may_repeat(&self) -> bool
        ensures flag { result ≡ may_repeat self.now.entries }
        ensures none { result ≡ false → numbers_repeated self.now.entries ≡ [] }
    {
        let row = self.row;
        may_repeat(&row.entries)
    }

    /// Adds the raw values that occurred earlier among them.
    pub(crate) fn push_repeated(&self, found: &mut Vec<i128>) -> Result<(), Memory>
        ensures { OnOk result (found.new.items ≡ found.old.items ++ numbers_repeated self.now.entries) }
    {
        found.extend_from_slice(self.repeated.as_slice())?;
        Ok(())
    }
}
