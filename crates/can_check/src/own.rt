//! A message's own diagnostics.
ghost use Rattle.std.specs.Prelude.{◌≡◌, ◌++◌, OnOk, length};
ghost use Rattle.can_entries.specs.Rows.{rows_of};
ghost use Rattle.can_check.specs.MessageFaults.{overlaps, own_by, own_faults};

use crate::all::push_other_faults;
use crate::layout_rules::push_outside;
use crate::overlap_rules::report_overlaps;
use crate::walk_rules::walks_in;
use can_diagnostics::Diagnostic;
use can_entries::{Lookup, Walk};
use can_overlap::Occupancy;
use can_references::CrossReferences;
use dbc_records::Message;
use dbc_values::Memory;

// Adds the signals that overlap. The table for overlaps is empty before and after.
fn push_overlaps(
    found: &mut Vec<Diagnostic>,
    occupancy: Occupancy,
    message: &Message,
    walks: &[Walk],
) -> Result<Occupancy, Memory>
    requires { length walks.now ≡ length message.now.signals }
    ensures { OnOk result (found.new.items ≡ found.old.items ++ overlaps message.now walks.now) }
{
    match report_overlaps(found, occupancy, message, walks) {
        Ok(occupancy) => Ok(occupancy),
        Err(_) => Err(Memory),
    }
}

// Adds a message's own diagnostics, by the multiplexing chains of its signals. The table for overlaps is empty before and after.
#[tactic(auto, using(crate::proofs::OwnFaults::pushed_thrice))]
fn push_by_walks<'a, L: Lookup>(
    found: &mut Vec<Diagnostic>,
    known: &CrossReferences<'a, L>,
    occupancy: Occupancy,
    message: &'a Message,
    walks: &[Walk],
) -> Result<Occupancy, Memory>
    requires { length walks.now ≡ length message.now.signals }
    ensures { OnOk result (found.new.items ≡ found.old.items ++ own_by known.now (rows_of message.now.head.number known.now)
        message.now walks.now) }
{
    push_outside(found, message)?;
    let occupancy = push_overlaps(found, occupancy, message, walks)?;
    push_other_faults(found, known, message, walks)?;
    Ok(occupancy)
}

/// Adds a message's own diagnostics: codes 5 to 15. Other messages can't change them. The table for overlaps is empty before and
/// after.
#[tactic(auto, using(crate::proofs::Counts::as_many), unfolding(crate::specs::MessageFaults::own_faults))]
pub fn push_own_faults<'a, L: Lookup>(
    found: &mut Vec<Diagnostic>,
    known: &CrossReferences<'a, L>,
    occupancy: Occupancy,
    message: &'a Message,
) -> Result<Occupancy, Memory>
    ensures { OnOk result (found.new.items ≡ found.old.items ++ own_faults known.now message.now) }
{
    let walks = walks_in(occupancy.allocator(), known, message)?;
    push_by_walks(found, known, occupancy, message, walks.as_slice())
}
