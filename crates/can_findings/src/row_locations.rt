//! The diagnostics of entries, with their locations.
ghost use Rattle.std.specs.Prelude.{◌≡◌, [], ◌∷◌, ◌++◌, IfOk, OnOk, map};
ghost use Rattle.can_references.specs.RowFaults.{row_fault};
ghost use Rattle.can_findings.specs.Beginnings.{at_starts};
ghost use Rattle.can_findings.specs.RowLocations.{findings_at, keys_in, findings_after, all_rows};

use crate::beginnings::{after_first, first_start};
use crate::finding::{Finding, Location};
use can_check::Diagnostic;
use can_entries::Lookup;
use can_references::{CrossReferences, EntryKeys, push_row};
use dbc_reader::{Start, Starts};
use dbc_records::{DatabaseEntry, EntryKind, EntryVisitor};
use dbc_values::Memory;
use std::marker::Model;

// Adds diagnostics of an entry that begins there.
fn push_at(findings: &mut Vec<Finding>, start: Start, found: Vec<Diagnostic>) -> Result<(), Memory>
    ensures { OnOk result (findings.new.items ≡ findings.old.items ++ map (findings_at start) found.items) }
{
    let location = Location::One(start);
    for diagnostic in found {
        findings.push(Finding {
            location,
            diagnostic,
        })?;
    }
    Ok(())
}

// Adds the diagnostics of an entry, given the entries before it, and adds it to those.
fn push_row_at<'a, L: Lookup, R: DatabaseEntry>(
    findings: &mut Vec<Finding>,
    known: &CrossReferences<'a, L>,
    seen: &mut EntryKeys<'a>,
    row: &'a R,
    start: Start,
) -> Result<(), Memory>
    ensures findings { OnOk result (findings.new.items ≡ findings.old.items ++ map (findings_at start) (row_fault known.now seen.old
        (R.key_of row.now))) }
    ensures seen { OnOk result (seen.new ≡ seen.old ++ R.key_of row.now ∷ []) }
{
    let mut found = Vec::new(*findings.allocator());
    push_row(&mut found, known, seen, row)?;
    push_at(findings, start, found)
}

// Adds the diagnostics of entries of one kind, which begin there, given the entries before them.
fn push_rows_at<'a, L: Lookup, R: DatabaseEntry>(
    findings: &mut Vec<Finding>,
    known: &CrossReferences<'a, L>,
    seen: &mut EntryKeys<'a>,
    rows: &'a [R],
    starts: &[Start],
) -> Result<(), Memory>
    ensures findings { OnOk result (findings.new.items ≡ findings.old.items ++ findings_after known.now seen.old (at_starts
        (map R.key_of rows.now) starts.now)) }
    ensures seen { OnOk result (seen.new ≡ seen.old ++ keys_in (at_starts (map R.key_of rows.now) starts.now)) }
{
    let (mut left, mut further) = (rows, starts);
    'rows: while let [row, others @ ..] = left {
        push_row_at(findings, known, seen, row, first_start(further))?;
        (left, further) = (others, after_first(further));
    }
    Ok(())
}

// The findings about the entries seen so far, preceded by others.
#[derive(Drop)]
struct EntryFindings<'a, L: Lookup> {
    known: CrossReferences<'a, L>,
    starts: &'a Starts,
    seen: EntryKeys<'a>,
    findings: Vec<Finding>,
}

impl<'a, L: Lookup> Model for EntryFindings<'a, L> {
    ghost use Rattle.can_findings.specs.RowLocations as locations;

    ghost Value = { locations.EntryFindings };

    ghost view = { λ a. record {
      database = a.known;
      starts = a.starts.now;
      seen = a.seen;
      findings = a.findings.items;
    } };
}

impl<'a, L: Lookup> EntryVisitor<'a> for EntryFindings<'a, L> {
    ghost use Rattle.can_findings.specs.RowLocations.{with_entries};

    ghost visited = { with_entries };

    fn visit<E: DatabaseEntry>(&mut self, kind: EntryKind, entries: &'a [E]) -> Result<(), Memory> {
        push_rows_at(
            &mut self.findings,
            &self.known,
            &mut self.seen,
            entries,
            self.starts.of(kind),
        )
    }
}

/// These findings, and those about all entries, kind by kind.
#[tactic(auto, using(crate::proofs::Rows::all_added))]
pub(crate) fn with_entry_findings<'a, L: Lookup>(
    findings: Vec<Finding>,
    known: CrossReferences<'a, L>,
    starts: &'a Starts,
) -> Result<Vec<Finding>, Memory>
    ensures { IfOk result (λ all. all.items ≡ findings.items ++ findings_after known.entry [] (all_rows known.entry starts.now)) }
{
    let database = known.database();
    let mut entries = EntryFindings {
        known,
        starts,
        seen: EntryKeys::new(*findings.allocator()),
        findings,
    };
    database.visit_entries(&mut entries)?;
    Ok(entries.findings)
}
