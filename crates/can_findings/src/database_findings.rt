//! All diagnostics of a database, with their locations.
ghost use Rattle.std.specs.Prelude.{◌≡◌, IfOk};
ghost use Rattle.can_findings.specs.RowStarts.{row_starts_of};
ghost use Rattle.can_findings.specs.AllFindings.{all_findings};

use crate::finding::Finding;
use crate::message_locations::push_messages;
use crate::row_locations::with_entry_findings;
use crate::row_starts::{KeyedStarts, SignalRowStarts};
use can_entries::{Indexed, Lookup};
use can_references::CrossReferences;
use dbc_reader::Starts;
use dbc_records::Database;
use dbc_values::Memory;
use std::alloc::Global;

// The findings, given what is known of the database and where its entries begin.
#[tactic(auto, using(crate::proofs::Rows::pushed_then), unfolding(crate::specs::AllFindings::all_findings))]
fn findings_by<'a, L: Lookup>(
    alloc: Global,
    known: CrossReferences<'a, L>,
    starts: &'a Starts,
    rows: &KeyedStarts<'_>,
) -> Result<Vec<Finding>, Memory>
    requires { rows.now ≡ row_starts_of known starts.now }
    ensures { IfOk result (λ finding. finding.items ≡ all_findings known.entry starts.now) }
{
    let database = known.database();
    let mut findings = Vec::new(alloc);
    push_messages(
        &mut findings,
        &known,
        database.messages.as_slice(),
        starts,
        rows,
    )?;
    with_entry_findings(findings, known, starts)
}

// The findings, given what is known of the database and the keys of its entries.
fn findings_by_keys<'a, L: Lookup>(
    alloc: Global,
    known: CrossReferences<'a, L>,
    starts: &'a Starts,
    rows: &SignalRowStarts<'_>,
) -> Result<Vec<Finding>, Memory>
    requires { rows.now ≡ row_starts_of known starts.now }
    ensures { IfOk result (λ finding. finding.items ≡ all_findings known.entry starts.now) }
{
    match KeyedStarts::of(alloc, rows) {
        Ok(rows) => findings_by(alloc, known, starts, &rows),
        Err(Memory) => Err(Memory),
    }
}

// The findings, given what is known of the database.
fn findings_known<'a, L: Lookup>(
    alloc: Global,
    known: CrossReferences<'a, L>,
    starts: &'a Starts,
) -> Result<Vec<Finding>, Memory>
    ensures { IfOk result (λ finding. finding.items ≡ all_findings known.entry starts.now) }
{
    let rows = SignalRowStarts::of(alloc, known.database(), starts)?;
    findings_by_keys(alloc, known, starts, &rows)
}

fn findings_with<'a, L: Lookup>(
    alloc: Global,
    lookup: &'a L,
    starts: &'a Starts,
) -> Result<Vec<Finding>, Memory>
    ensures { IfOk result (λ finding. finding.items ≡ all_findings (L.whole lookup.now) starts.now) }
{
    match CrossReferences::of(alloc, lookup) {
        Ok(known) => findings_known(alloc, known, starts),
        Err(Memory) => Err(Memory),
    }
}

/// All diagnostics of a database, as `can_check` finds them, each with where the statements or signals that it is about begin in
/// the text of the database.
pub fn all_findings(
    alloc: Global,
    database: &Database,
    starts: &Starts,
) -> Result<Vec<Finding>, Memory>
    ensures { IfOk result (λ finding. finding.items ≡ all_findings database.now starts.now) }
{
    match Indexed::of(alloc, database) {
        Ok(indexed) => findings_with(alloc, &indexed, starts),
        Err(Memory) => Err(Memory),
    }
}
