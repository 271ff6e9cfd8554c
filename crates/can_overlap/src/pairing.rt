//! The pairs of signals that overlap, if a table has their indexes.
ghost use Rattle.std.specs.Prelude.{◌≡◌, Some, ◌+◌, ◌≤◌, ◌<◌, ◌++◌, length, drop, OnOk, All, slice_get};
ghost use Rattle.can_entries.specs.declared.walk.Walk.TheVariants.{Chain};
ghost use Rattle.can_overlap.specs.Overlaps.{pair_where, pairs_from};
ghost use Rattle.can_overlap.specs.inner.Occupancy.{shared_pairs, reach, IsOccupancy};
ghost use Rattle.can_overlap.specs.inner.MuxPaths.{goes_at, AreNoted};

use crate::chain_index::{ChainIndex, can_coexist, none_noted};
use crate::indexes::IndexSet;
use crate::mux_paths::MuxPaths;
use crate::pair::Pair;
use crate::table::shared_by;
use can_bits::Field;
use can_entries::Link;
use dbc_values::Memory;
use std::alloc::Global;

fn push_pair(
    found: &mut Vec<Pair>,
    indexed: &ChainIndex<'_>,
    noted: &mut [Option<bool>],
    first: usize,
    second: usize,
) -> Result<(), Memory>
    requires { AreNoted indexed.now noted.old }
    ensures found { OnOk result (found.new.items ≡ found.old.items
        ++ pair_where (goes_at indexed.now.links indexed.now.walks second) first second) }
    ensures noted { AreNoted indexed.now noted.new }
{
    if can_coexist(indexed, noted, second) {
        found.push(Pair { first, second })?;
    }
    Ok(())
}

// Adds the pairs of a signal with later ones. `shared` has the indexes of the signals that share a bit with it.
fn push_shared(
    found: &mut Vec<Pair>,
    indexed: &ChainIndex<'_>,
    noted: &mut [Option<bool>],
    first: usize,
    shared: &IndexSet,
) -> Result<(), Memory>
    requires index { first < length indexed.now.walks }
    requires few { length indexed.now.walks ≤ 999 }
    requires noted { AreNoted indexed.now noted.old }
    ensures { OnOk result (found.new.items ≡ found.old.items ++ shared_pairs first indexed.now.links shared.now.words (first + 1)
        (drop (first + 1) indexed.now.walks)) }
{
    let end = indexed.count();
    let mut next = shared.next_from(first + 1);
    while next < end {
        push_pair(found, indexed, noted, first, next)?;
        next = shared.next_from(next + 1);
    }
    Ok(())
}

// Adds the pairs of the signal at an index, which has this chain, with the later ones.
fn push_chained(
    found: &mut Vec<Pair>,
    paths: &MuxPaths<'_>,
    links: &[Link],
    shared: &IndexSet,
    first: usize,
) -> Result<(), Memory>
    requires index { first < length paths.now.walks }
    requires few { length paths.now.walks ≤ 999 }
    requires chain { slice_get paths.now.walks first ≡ Some (Chain links.now) }
    ensures { OnOk result (found.new.items ≡ found.old.items ++ shared_pairs first links.now shared.now.words (first + 1)
        (drop (first + 1) paths.now.walks)) }
{
    if shared.next_from(first + 1) >= paths.count() {
        return Ok(());
    }
    let alloc = *found.allocator();
    let indexed = ChainIndex::of(alloc, paths, links, first)?;
    let mut noted = none_noted(alloc, &indexed)?;
    push_shared(found, &indexed, &mut noted, first, shared)?;
    Ok(())
}

/// Adds the pairs of the signal at an index with the later ones, if the rows have the indexes of all.
pub(crate) fn push_pairs(
    found: &mut Vec<Pair>,
    rows: &[IndexSet],
    fields: &[Field],
    paths: &MuxPaths<'_>,
    first: usize,
) -> Result<(), Memory>
    requires index { first < length fields.now }
    requires lengths { length paths.now.walks ≡ length fields.now }
    requires few { length fields.now ≤ 999 }
    requires marked { IsOccupancy fields.now rows.now }
    requires space { All (λ field. reach field ≤ length rows.now) fields.now }
    ensures { OnOk result (found.new.items ≡ found.old.items ++ pairs_from fields.now paths.now.walks first) }
{
    match paths.chain_at(first) {
        Some(links) => {
            let shared = shared_by(rows, fields[first]);
            push_chained(found, paths, links, &shared, first)?;
            Ok(())
        }
        None => Ok(()),
    }
}
