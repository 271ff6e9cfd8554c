//! A row for each bit position, with the indexes of the signals that have a bit there.
ghost use Rattle.std.specs.Prelude.{◌≡◌, ℕ, ◌<◌, ◌≤◌, ◌||◌, ◌&&◌, ◌==◌, not, length, OnOk, All};
ghost use Rattle.std.specs.List.{list_any, range_with_len};
ghost use Rattle.can_bits.specs.Bits.{position_of, has_position};
ghost use Rattle.can_overlap.specs.inner.IndexSet.{has};
ghost use Rattle.can_overlap.specs.inner.Occupancy.{is_marked, reach, IsClear, IsOccupancy};

use crate::indexes::IndexSet;
use can_bits::Field;
use dbc_values::Memory;
use std::alloc::Global;

/// No rows.
pub(crate) fn empty(alloc: Global) -> Vec<IndexSet>
    ensures { IsClear result.items }
{
    Vec::new(alloc)
}

// More than each position of a field. The positions of each byte are counted from either end, so the greatest may be up to 14
// beyond what start and length imply.
#[tactic(auto, unfolding(crate::specs::inner::Occupancy::reach))]
fn reach_of(field: Field) -> usize
    ensures { result ≡ reach field }
{
    usize::from(field.start) + usize::from(field.length) + 14
}

fn furthest(fields: &[Field]) -> usize
    ensures { All (λ field. reach field ≤ result) fields.now }
{
    let mut most: usize = 0;
    for field in fields {
        most = most.max(reach_of(*field));
    }
    most
}

/// Adds empty rows, until there is one for each position of the fields.
pub(crate) fn grow(rows: &mut Vec<IndexSet>, fields: &[Field]) -> Result<(), Memory>
    requires { IsClear rows.old.items }
    ensures clear { IsClear rows.new.items }
    ensures space { OnOk result (All (λ field. reach field ≤ length rows.new.items) fields.now) }
{
    let reach = furthest(fields);
    if rows.len() < reach {
        rows.resize(reach, IndexSet::new())?;
    }
    Ok(())
}

// Adds an index to the row of each position of a field.
fn mark(rows: &mut [IndexSet], field: Field, index: usize)
    requires space { reach field ≤ length rows.old }
    requires few { index < 1024 }
    ensures { (position other : ℕ) → is_marked rows.new position other
        ≡ (is_marked rows.old position other || (has_position field position && other == index)) }
{
    for bit in 0..field.length {
        rows[field.position(bit) as usize].insert(index);
    }
}

/// Adds the index of each field to the rows of its positions.
pub(crate) fn mark_all(rows: &mut [IndexSet], fields: &[Field])
    requires clear { IsClear rows.old }
    requires space { All (λ field. reach field ≤ length rows.old) fields.now }
    requires few { length fields.now ≤ 999 }
    ensures { IsOccupancy fields.now rows.new }
{
    for (index, field) in fields.iter().enumerate() {
        mark(rows, *field, index);
    }
}

/// The indexes that are in the rows of a field's positions.
pub(crate) fn shared_by(rows: &[IndexSet], field: Field) -> IndexSet
    requires { reach field ≤ length rows.now }
    ensures { (index : ℕ) → has result.words index ≡ list_any (λ bit. is_marked rows.now (position_of field bit) index)
        (range_with_len 0 field.length) }
{
    let mut shared = IndexSet::new();
    for bit in 0..field.length {
        shared.insert_all(&rows[field.position(bit) as usize]);
    }
    shared
}

// Empties the row of each position of a field.
fn clear(rows: &mut [IndexSet], field: Field)
    requires { reach field ≤ length rows.old }
    ensures { (position other : ℕ) → is_marked rows.new position other
        ≡ (is_marked rows.old position other && not (has_position field position)) }
{
    for bit in 0..field.length {
        rows[field.position(bit) as usize] = IndexSet::new();
    }
}

/// Empties the rows that these fields have marked.
pub(crate) fn clear_all(rows: &mut [IndexSet], fields: &[Field])
    requires space { All (λ field. reach field ≤ length rows.old) fields.now }
    requires marked { IsOccupancy fields.now rows.old }
    ensures { IsClear rows.new }
{
    for field in fields {
        clear(rows, *field);
    }
}
