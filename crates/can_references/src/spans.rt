//! The range of raw values of entries, and of each half of them.
ghost use Rattle.std.specs.Prelude.{◌≡◌, ◌++◌, ℤ, All, IfOk, OnOk};
ghost use Rattle.can_references.specs.RawRanges.{numbers_out_of_range};
ghost use Rattle.can_references.specs.inner.Spans.{Holds, IsWithin, AreSpans, span_of, has_all};

use crate::raw_range::{in_raw_range, is_out_of_range};
use dbc_records::{Entry, Signal};
use dbc_values::Memory;
use std::alloc::Global;

// Up to this many entries are visited one by one.
const LINEAR_SEARCH_LIMIT: usize = 64;

/// Numbers from the least to the greatest.
#[derive(Clone, Copy)]
pub(crate) struct Span {
    /// The least.
    pub least: i128,
    /// The greatest.
    pub greatest: i128,
}

/// The span of entries, and if there are many, the spans of each half.
#[derive(Drop)]
pub(crate) enum Spans {
    /// The span of few entries.
    Small(Span),
    /// The span of entries, and the spans of their halves.
    Halves(Span, Box<Spans>, Box<Spans>),
}

// The span widened to hold an entry's raw value.
fn widened(span: Span, entry: &Entry) -> Span
    ensures holds { IsWithin result entry.now }
    ensures more { (other : ℤ) → Holds span other → Holds result other }
{
    let number = entry.number;
    Span {
        least: if number < span.least {
            number
        } else {
            span.least
        },
        greatest: if span.greatest < number {
            number
        } else {
            span.greatest
        },
    }
}

// A span of entries.
fn entries_span(entries: &[Entry]) -> Span
    ensures { All (IsWithin result) entries.now }
{
    let mut span = Span {
        least: i128::MAX,
        greatest: i128::MIN,
    };
    for entry in entries {
        span = widened(span, entry);
    }
    span
}

// The span that holds what either of two spans holds.
fn joined(first: Span, second: Span) -> Span
    ensures first { (number : ℤ) → Holds first number → Holds result number }
    ensures second { (number : ℤ) → Holds second number → Holds result number }
{
    Span {
        least: if first.least < second.least {
            first.least
        } else {
            second.least
        },
        greatest: if first.greatest < second.greatest {
            second.greatest
        } else {
            first.greatest
        },
    }
}

/// The spans of entries.
pub(crate) fn spans_of(alloc: Global, entries: &[Entry]) -> Result<Spans, Memory>
    ensures { IfOk result (λ spans. AreSpans spans entries.now) }
{
    if entries.len() <= LINEAR_SEARCH_LIMIT {
        return Ok(Spans::Small(entries_span(entries)));
    }
    let (left, right) = entries.split_at(entries.len() / 2);
    let first = spans_of(alloc, left)?;
    let second = spans_of(alloc, right)?;
    let span = joined(first.span(), second.span());
    Ok(Spans::Halves(span, Box::new(alloc, first)?, Box::new(alloc, second)?))
}

// Whether a signal can have all raw values of a span.
fn has_all(signal: &Signal, span: Span) -> bool
    ensures { result ≡ has_all signal.now span }
{
    in_raw_range(signal.signed, signal.length, span.least)
        && in_raw_range(signal.signed, signal.length, span.greatest)
}

/// Adds the raw values of the entries that a signal never has, visiting entries one by one.
pub(crate) fn push_each(
    found: &mut Vec<i128>,
    signal: &Signal,
    entries: &[Entry],
) -> Result<(), Memory>
    ensures { OnOk result (found.new.items ≡ found.old.items ++ numbers_out_of_range signal.now entries.now) }
{
    for entry in entries {
        if is_out_of_range(signal, entry) {
            found.push(entry.number)?;
        }
    }
    Ok(())
}

impl Spans {
    fn span(&self) -> Span
        ensures { result ≡ span_of self.now }
    {
        match self {
            Spans::Small(span) => *span,
            Spans::Halves(span, _, _) => *span,
        }
    }

    /// Adds the raw values of the entries that a signal never has. Halves without any are skipped.
    pub(crate) fn push_out_of_range(
        &self,
        found: &mut Vec<i128>,
        signal: &Signal,
        entries: &[Entry],
    ) -> Result<(), Memory>
        requires { AreSpans self.now entries.now }
        ensures { OnOk result (found.new.items ≡ found.old.items ++ numbers_out_of_range signal.now entries.now) }
    {
        if has_all(signal, self.span()) {
            return Ok(());
        }
        match self {
            Spans::Small(_) => push_each(found, signal, entries),
            Spans::Halves(_, first, second) => {
                let (left, right) = entries.split_at(entries.len() / 2);
                first.push_out_of_range(found, signal, left)?;
                second.push_out_of_range(found, signal, right)
            }
        }
    }
}
