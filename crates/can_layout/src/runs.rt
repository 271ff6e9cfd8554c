//! Runs of signals with the same multiplexing chain: they are present together.
ghost use Rattle.std.specs.Prelude.{◌≡◌, ◌<◌, ◌≤◌, is_some, option_map, IfOk, length};
ghost use Rattle.std.specs.Bool.{Decides};
ghost use Rattle.can_entries.specs.Walks.{mux_parent_at, mux_parent_or_missing};
ghost use Rattle.can_entries.specs.declared.mux_parent.MuxParent.TheVariants.{Switch};
ghost use Rattle.can_layout.specs.Presence.{AreChained, AreRuns, IsLongestRun, chain_at, parent_at};

use crate::row::Row;
use can_entries::{Link, MuxParent, mux_parent_at};
use dbc_records::Range;
use dbc_values::{Copied, Memory};
use std::alloc::Global;

/// The run that a signal is in: signals one after another that have the same multiplexing chain, as many as there are.
#[derive(Drop)]
pub(crate) struct Run {
    /// The index of its first signal.
    pub(crate) first: usize,
    /// The index after that of its last signal.
    pub(crate) end: usize,
    /// The parent multiplexor of its signals, with their raw values of it. It is missing if they have no
    /// chain, whatever the reason.
    pub(crate) parent: MuxParent,
}

// Whether the ranges are the same, in the same order.
fn are_same(ones: &[Range], others: &[Range]) -> bool
    ensures { Decides result (ones.now ≡ others.now) }
{
    ones == others
}

// Whether the links are to the same multiplexor with the same raw values.
fn is_same_link(one: &Link, other: &Link) -> bool
    ensures { Decides result (one.now ≡ other.now) }
{
    one.switch == other.switch && are_same(one.ranges(), other.ranges())
}

// Whether two signals have the same multiplexing parent.
fn are_alike(one: &MuxParent, other: &MuxParent) -> bool
    ensures { Decides result (one.now ≡ other.now) }
{
    match one {
        MuxParent::Nothing => matches!(other, MuxParent::Nothing),
        MuxParent::Missing => matches!(other, MuxParent::Missing),
        MuxParent::Switch(link) => match other {
            MuxParent::Switch(other) => is_same_link(link, other),
            _ => false,
        },
    }
}

/// Whether the signal at an index has a chain.
pub(crate) fn has_chain(rows: &[Row], index: usize) -> bool
    ensures { result ≡ is_some (chain_at rows.now index) }
{
    match rows.get(index) {
        Some(row) => row.chain.is_some(),
        None => false,
    }
}

// The multiplexing parent of the signal at an index, if it has a chain.
fn parent_at<'a>(rows: &[Row], mux_parents: &'a [MuxParent], index: usize) -> Option<&'a MuxParent>
    ensures { mux_parent_or_missing (option_map (λ mux_parent. mux_parent.now) result) ≡ parent_at rows.now mux_parents.now index }
{
    if has_chain(rows, index) {
        mux_parent_at(mux_parents, index)
    } else {
        None
    }
}

// The same, as a copy.
fn parent_of(rows: &[Row], mux_parents: &[MuxParent], index: usize) -> Result<MuxParent, Memory>
    ensures { IfOk result (λ parent. parent ≡ parent_at rows.now mux_parents.now index) }
{
    match parent_at(rows, mux_parents, index) {
        Some(MuxParent::Nothing) => Ok(MuxParent::Nothing),
        Some(MuxParent::Switch(link)) => Ok(MuxParent::Switch(link.copy()?)),
        _ => Ok(MuxParent::Missing),
    }
}

// Whether two signals have the same parent multiplexor and raw values, or both none, or both no chain.
fn have_same_parent(rows: &[Row], mux_parents: &[MuxParent], one: usize, other: usize) -> bool
    ensures { Decides result (parent_at rows.now mux_parents.now one ≡ parent_at rows.now mux_parents.now other) }
{
    let (one, other) = (
        parent_at(rows, mux_parents, one),
        parent_at(rows, mux_parents, other),
    );
    are_alike(
        one.unwrap_or(&MuxParent::Missing),
        other.unwrap_or(&MuxParent::Missing),
    )
}

// Up to where the signals from an index on have the same chain.
fn run_end(rows: &[Row], mux_parents: &[MuxParent], index: usize) -> usize
    requires { index < length rows.now }
    ensures { IsLongestRun (parent_at rows.now mux_parents.now) (length rows.now) index result }
{
    for end in index + 1..rows.len() {
        if !have_same_parent(rows, mux_parents, end, index) {
            return end;
        }
    }
    rows.len()
}

// The first signal and the end of the run that an index is in, if that of the index before begins with `first` and ends at `end`.
fn next_run(
    rows: &[Row],
    mux_parents: &[MuxParent],
    index: usize,
    first: usize,
    end: usize,
) -> (usize, usize)
    requires index { index < length rows.now }
    requires first { first ≤ index }
    requires run { index < end → IsLongestRun (parent_at rows.now mux_parents.now) (length rows.now) first end }
    ensures first { result.0 ≤ index }
    ensures end { index < result.1 }
    ensures run { IsLongestRun (parent_at rows.now mux_parents.now) (length rows.now) result.0 result.1 }
{
    if index < end {
        (first, end)
    } else {
        (index, run_end(rows, mux_parents, index))
    }
}

/// For each signal the run that it is in.
pub(crate) fn runs_of(
    alloc: Global,
    rows: &[Row],
    mux_parents: &[MuxParent],
) -> Result<Vec<Run>, Memory>
    requires { AreChained rows.now mux_parents.now }
    ensures count { IfOk result (λ runs. length runs.items ≡ length rows.now) }
    ensures runs { IfOk result (λ runs. AreRuns rows.now runs.items) }
{
    let mut runs = Vec::with_capacity(alloc, rows.len())?;
    let mut first = 0;
    let mut end = 0;
    for index in 0..rows.len() {
        (first, end) = next_run(rows, mux_parents, index, first, end);
        let parent = parent_of(rows, mux_parents, index)?;
        runs.push(Run { first, end, parent })?;
    }
    Ok(runs)
}
