//! The diagnostics of entries.
ghost use Rattle.std.specs.Prelude.{◌≡◌, false, [], ◌∷◌, ◌++◌, IfOk, OnOk, map};
ghost use Rattle.std.specs.List.{flat_map};
ghost use Rattle.can_references.specs.Hashes.{entry_hash};
ghost use Rattle.dbc_records.specs.EntryKeys.{target_of, entry_key};
ghost use Rattle.can_diagnostics.specs.Diagnostics.{of_row};
ghost use Rattle.can_references.specs.Finding.{where_true, each_after};
ghost use Rattle.can_references.specs.RowFaults.{lacks_signal, lacks_target, is_dangling, lacks_definition, is_undefined};
ghost use Rattle.can_references.specs.RowFaults.{faults_of_row, row_fault, row_faults};

use crate::apart::all_differ;
use crate::cross_references::CrossReferences;
use crate::entry_keys::EntryKeys;
use crate::hash::entry_hash;
use can_diagnostics::{Code, Diagnostic};
use can_entries::Lookup;
use dbc_records::{DatabaseEntry, EntryKeyRef, EntryKind, EntryVisitor, TargetRef};
use dbc_values::Memory;
use std::alloc::Global;
use std::marker::Model;

// Whether no message of the CAN identifier has the signal.
fn lacks_signal<'a, L: Lookup>(known: &CrossReferences<'a, L>, number: u32, name: &'a [u8]) -> bool
    ensures { result ≡ lacks_signal known.now number name.now }
{
    !known.has_signal(number, name)
}

fn lacks_target<'a, L: Lookup>(known: &CrossReferences<'a, L>, target: TargetRef<'a>) -> bool
    ensures { result ≡ lacks_target known.now (target_of target.entry) }
{
    match target {
        TargetRef::Whole => false,
        TargetRef::Node(name) => !known.is_known_node(name),
        TargetRef::Message(number) => !known.has_number(number),
        TargetRef::Signal(number, name) => lacks_signal(known, number, name),
    }
}

// Whether the entry is about something that doesn't exist.
fn is_dangling<'a, L: Lookup>(known: &CrossReferences<'a, L>, key: EntryKeyRef<'a>) -> bool
    ensures { result ≡ is_dangling known.now (entry_key key.entry) }
{
    lacks_target(known, key.target())
}

fn lacks_definition<'a, L: Lookup>(known: &CrossReferences<'a, L>, name: &'a [u8]) -> bool
    ensures { result ≡ lacks_definition known.now name.now }
{
    !known.is_defined(name)
}

// Whether the entry gives an attribute that is not defined.
fn is_undefined<'a, L: Lookup>(known: &CrossReferences<'a, L>, key: EntryKeyRef<'a>) -> bool
    ensures { result ≡ is_undefined known.now (entry_key key.entry) }
{
    match key {
        EntryKeyRef::Default(name) | EntryKeyRef::Attribute(name, _) => {
            lacks_definition(known, name)
        }
        _ => false,
    }
}

// Adds the diagnostic of an entry if the test holds.
fn push_where<R: DatabaseEntry>(
    found: &mut Vec<Diagnostic>,
    test: bool,
    code: Code,
    row: &R,
) -> Result<(), Memory>
    ensures { OnOk result (found.new.items ≡ found.old.items ++ where_true test (of_row code (R.key_of row.now))) }
{
    if test {
        found.push(Diagnostic::of_row(code, row.owned_key()?))?;
    }
    Ok(())
}

// Adds the diagnostics of an entry whose key an earlier entry has, or none.
#[tactic(auto, using(crate::proofs::Pushing::pushed_then), unfolding(crate::specs::RowFaults::faults_of_row))]
fn push_faults_of_row<'a, L: Lookup, R: DatabaseEntry>(
    found: &mut Vec<Diagnostic>,
    known: &CrossReferences<'a, L>,
    row: &'a R,
    is_repeated: bool,
) -> Result<(), Memory>
    ensures { OnOk result (found.new.items ≡ found.old.items ++ faults_of_row known.now is_repeated (R.key_of row.now)) }
{
    let key = row.key();
    push_where(found, is_dangling(known, key), Code::DanglingRow, row)?;
    push_where(found, is_repeated, Code::RepeatedRow, row)?;
    push_where(found, is_undefined(known, key), Code::UnknownAttribute, row)
}

/// Adds the diagnostics of an entry, given the entries before it, and adds it to those.
#[tactic(auto, unfolding(crate::specs::RowFaults::row_fault))]
pub fn push_row<'a, L: Lookup, R: DatabaseEntry>(
    found: &mut Vec<Diagnostic>,
    known: &CrossReferences<'a, L>,
    seen: &mut EntryKeys<'a>,
    row: &'a R,
) -> Result<(), Memory>
    ensures found { OnOk result (found.new.items ≡ found.old.items ++ row_fault known.now seen.old (R.key_of row.now)) }
    ensures seen { OnOk result (seen.new ≡ seen.old ++ R.key_of row.now ∷ []) }
{
    let is_new = seen.add(row.key())?;
    push_faults_of_row(found, known, row, !is_new)
}

// Adds the diagnostics of entries of one kind, each given those before it.
fn push_in_round<'a, L: Lookup, R: DatabaseEntry>(
    found: &mut Vec<Diagnostic>,
    known: &CrossReferences<'a, L>,
    rows: &'a [R],
) -> Result<(), Memory>
    ensures { OnOk result (found.new.items ≡ found.old.items ++ each_after (row_fault known.now) [] (map R.key_of rows.now)) }
{
    let mut seen = EntryKeys::new(*found.allocator());
    for row in rows {
        push_row(found, known, &mut seen, row)?;
    }
    Ok(())
}

// Adds the diagnostics of entries none of which is repeated.
fn push_alone<'a, L: Lookup, R: DatabaseEntry>(
    found: &mut Vec<Diagnostic>,
    known: &CrossReferences<'a, L>,
    rows: &'a [R],
) -> Result<(), Memory>
    ensures { OnOk result (found.new.items ≡ found.old.items ++ flat_map (faults_of_row known.now false) (map R.key_of
        rows.now)) }
{
    for row in rows {
        push_faults_of_row(found, known, row, false)?;
    }
    Ok(())
}

// The hashes of the entries' keys.
fn hashes_of<R: DatabaseEntry>(alloc: Global, rows: &[R]) -> Result<Vec<u64>, Memory>
    ensures { IfOk result (λ hashes. hashes.items ≡ map entry_hash (map R.key_of rows.now)) }
{
    let mut hashes = Vec::with_capacity(alloc, rows.len())?;
    for row in rows {
        hashes.push(entry_hash(&row.key()))?;
    }
    Ok(hashes)
}

// Adds the diagnostics of entries of one kind. If the hashes of their keys differ, as they mostly do, no entry is repeated, and
// no key is kept.
fn push_rows<'a, L: Lookup, R: DatabaseEntry>(
    found: &mut Vec<Diagnostic>,
    known: &CrossReferences<'a, L>,
    rows: &'a [R],
) -> Result<(), Memory>
    ensures { OnOk result (found.new.items ≡ found.old.items ++ each_after (row_fault known.now) [] (map R.key_of rows.now)) }
{
    if all_differ(hashes_of(*found.allocator(), rows)?) {
        push_alone(found, known, rows)
    } else {
        push_in_round(found, known, rows)
    }
}

// The diagnostics of the entries seen so far.
#[derive(Drop)]
struct EntryFaults<'a, L: Lookup> {
    known: CrossReferences<'a, L>,
    found: Vec<Diagnostic>,
}

impl<'a, L: Lookup> Model for EntryFaults<'a, L> {
    ghost use Rattle.can_references.specs.RowFaults as faults;

    ghost Value = { faults.EntryFaults };

    ghost view = { λ a. record { database = a.known; found = a.found.items } };
}

impl<'a, L: Lookup> EntryVisitor<'a> for EntryFaults<'a, L> {
    ghost use Rattle.can_references.specs.RowFaults.{with_entries};

    ghost visited = { with_entries };

    fn visit<E: DatabaseEntry>(
        &mut self,
        _kind: EntryKind,
        entries: &'a [E],
    ) -> Result<(), Memory> {
        push_rows(&mut self.found, &self.known, entries)
    }
}

/// The diagnostics of the entries of a database, kind by kind: codes 16 to 18.
#[tactic(auto, using(crate::proofs::ByKind::all_added), unfolding(crate::specs::RowFaults::row_faults))]
pub fn row_faults<L: Lookup>(
    alloc: Global,
    known: CrossReferences<'_, L>,
) -> Result<Vec<Diagnostic>, Memory>
    ensures { IfOk result (λ found. found.items ≡ row_faults known.entry) }
{
    let database = known.database();
    let mut faults = EntryFaults {
        known,
        found: Vec::new(alloc),
    };
    database.visit_entries(&mut faults)?;
    Ok(faults.found)
}
