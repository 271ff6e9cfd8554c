//! All diagnostics of one message and of a whole database.
ghost use Rattle.std.specs.Prelude.{◌≡◌, ◌++◌, ◌<◌, IfOk, OnOk, Some, length, slice_get, option_map};
ghost use Rattle.std.specs.List.{flat_map};
ghost use Rattle.can_entries.specs.Rows.{rows_of};
ghost use Rattle.can_references.specs.RowFaults.{row_faults};
ghost use Rattle.can_check.specs.MessageFaults.{reading_faults, place_faults, other_faults, faults_by, message_faults};
ghost use Rattle.can_check.specs.MessageFaults.{floats, long, no_scale};
ghost use Rattle.can_check.specs.AllFaults.{all_faults};
ghost use Rattle.can_check.specs.Reports.{Takes};

use crate::layout_rules::{push_outside, push_switch_faults};
use crate::overlap_rules::report_overlaps;
use crate::report::Report;
use crate::signal_rules::{HasNoScale, IsFloat, IsLong, push_where};
use crate::value_rules::push_value_faults;
use crate::walk_rules::walks_in;
use can_diagnostics::{Code, Diagnostic};
use can_entries::{Indexed, Lookup, MessageRows, Walk};
use can_overlap::Occupancy;
use can_references::{CrossReferences, push_head_faults, push_unknown_nodes, row_faults};
use dbc_records::{Database, Message};
use dbc_values::{Memory, Stop};
use std::alloc::Global;

// Adds the signals that can't be decoded for reasons other than where their bits are: codes 10 to 12.
#[tactic(auto, using(can_references::proofs::Pushing::pushed_then), unfolding(crate::specs::MessageFaults::reading_faults, crate::specs::MessageFaults::floats, crate::specs::MessageFaults::long, crate::specs::MessageFaults::no_scale))]
fn push_reading_faults<L: Lookup>(
    found: &mut Vec<Diagnostic>,
    rows: &MessageRows<'_, L>,
    message: &Message,
) -> Result<(), Memory>
    ensures { OnOk result (found.new.items ≡ found.old.items ++ reading_faults rows.now message.now) }
{
    let head = &message.head;
    let signals = message.signals.as_slice();
    push_where(found, Code::Float, head, &IsFloat { rows }, signals)?;
    push_where(found, Code::Long, head, &IsLong, signals)?;
    push_where(found, Code::Scale, head, &HasNoScale, signals)
}

// The diagnostics before the overlaps of a message.
fn place_faults_of<'a, L: Lookup>(
    alloc: Global,
    known: &CrossReferences<'a, L>,
    message: &'a Message,
) -> Result<Vec<Diagnostic>, Memory>
    ensures { IfOk result (λ found. found.items ≡ place_faults known.now message.now) }
{
    let mut found = Vec::new(alloc);
    push_place_faults(&mut found, known, message)?;
    Ok(found)
}

#[tactic(auto, using(can_references::proofs::Pushing::pushed_then), unfolding(crate::specs::MessageFaults::place_faults))]
fn push_place_faults<'a, L: Lookup>(
    found: &mut Vec<Diagnostic>,
    known: &CrossReferences<'a, L>,
    message: &'a Message,
) -> Result<(), Memory>
    ensures { OnOk result (found.new.items ≡ found.old.items ++ place_faults known.now message.now) }
{
    push_head_faults(found, known, message)?;
    push_outside(found, message)
}

/// Adds the diagnostics of a message after its overlaps: codes 7 to 15.
#[tactic(auto, using(can_references::proofs::Pushing::pushed_then), unfolding(crate::specs::MessageFaults::other_faults))]
pub(crate) fn push_other_faults<'a, L: Lookup>(
    found: &mut Vec<Diagnostic>,
    known: &CrossReferences<'a, L>,
    message: &'a Message,
    walks: &[Walk],
) -> Result<(), Memory>
    ensures { OnOk result (found.new.items ≡ found.old.items ++ other_faults known.now (rows_of message.now.head.number known.now)
        message.now walks.now) }
{
    let rows = MessageRows::of(known.lookup(), message.head.number);
    push_switch_faults(found, &rows, message, walks)?;
    push_reading_faults(found, &rows, message)?;
    push_unknown_nodes(found, known, message)?;
    push_value_faults(found, known, message)
}

// Reports the diagnostics before the overlaps of a message.
fn report_place_faults<'a, L: Lookup, T: Report>(
    to: &mut T,
    alloc: Global,
    known: &CrossReferences<'a, L>,
    message: &'a Message,
) -> Result<(), Stop>
    ensures { Takes T.Took T.Stopped to.old to.new result (place_faults known.now message.now) }
{
    match place_faults_of(alloc, known, message) {
        Ok(found) => to.take(found),
        Err(Memory) => Err(Stop::Memory),
    }
}

// Reports the diagnostics after the overlaps of a message.
fn report_other_faults<'a, L: Lookup, T: Report>(
    to: &mut T,
    known: &CrossReferences<'a, L>,
    message: &'a Message,
    walks: &Vec<Walk>,
) -> Result<(), Stop>
    ensures { Takes T.Took T.Stopped to.old to.new result (other_faults known.now (rows_of message.now.head.number known.now)
        message.now walks.now.items) }
{
    let mut found = Vec::new(*walks.allocator());
    match push_other_faults(&mut found, known, message, walks.as_slice()) {
        Ok(()) => to.take(found),
        Err(Memory) => Err(Stop::Memory),
    }
}

// Reports the diagnostics of a message, by its signals' multiplexing chains. The table for overlaps is empty before and after.
fn report_by_walks<'a, L: Lookup, T: Report>(
    to: &mut T,
    known: &CrossReferences<'a, L>,
    occupancy: Occupancy,
    message: &'a Message,
    walks: &Vec<Walk>,
) -> Result<Occupancy, Stop>
    requires { length walks.now.items ≡ length message.now.signals }
    ensures { Takes T.Took T.Stopped to.old to.new result (faults_by known.now (rows_of message.now.head.number known.now)
        message.now walks.now.items) }
{
    report_place_faults(to, occupancy.allocator(), known, message)?;
    let occupancy = report_overlaps(to, occupancy, message, walks.as_slice())?;
    report_other_faults(to, known, message, walks)?;
    Ok(occupancy)
}

/// Reports the diagnostics of a message, by what is known of its database. The table for overlaps is empty before and after.
#[tactic(auto, using(crate::proofs::Counts::as_many), unfolding(crate::specs::MessageFaults::message_faults))]
pub fn report_message<'a, L: Lookup, T: Report>(
    to: &mut T,
    known: &CrossReferences<'a, L>,
    occupancy: Occupancy,
    message: &'a Message,
) -> Result<Occupancy, Stop>
    ensures { Takes T.Took T.Stopped to.old to.new result (message_faults known.now message.now) }
{
    let walks = walks_in(occupancy.allocator(), known, message)?;
    report_by_walks(to, known, occupancy, message, &walks)
}

// Reports the diagnostics of messages, in order.
fn report_messages<'a, L: Lookup, T: Report>(
    to: &mut T,
    alloc: Global,
    known: &CrossReferences<'a, L>,
    messages: &'a [Message],
) -> Result<(), Stop>
    ensures { Takes T.Took T.Stopped to.old to.new result (flat_map (message_faults known.now) messages.now) }
{
    let mut occupancy = Occupancy::new(alloc);
    for message in messages {
        occupancy = report_message(to, known, occupancy, message)?;
    }
    Ok(())
}

// Reports the diagnostics of entries.
fn report_rows<L: Lookup, T: Report>(
    to: &mut T,
    alloc: Global,
    known: CrossReferences<'_, L>,
) -> Result<(), Stop>
    ensures { Takes T.Took T.Stopped to.old to.new result (row_faults known.entry) }
{
    match row_faults(alloc, known) {
        Ok(found) => to.take(found),
        Err(Memory) => Err(Stop::Memory),
    }
}

// Reports all diagnostics of what is known.
#[tactic(auto, unfolding(crate::specs::AllFaults::all_faults))]
fn report_known<L: Lookup, T: Report>(
    to: &mut T,
    alloc: Global,
    known: CrossReferences<'_, L>,
) -> Result<(), Stop>
    ensures { Takes T.Took T.Stopped to.old to.new result (all_faults known.entry) }
{
    report_messages(to, alloc, &known, known.database().messages.as_slice())?;
    report_rows(to, alloc, known)
}

// Reports all diagnostics of a database whose entries are found by `lookup`.
fn report_with<L: Lookup, T: Report>(to: &mut T, alloc: Global, lookup: &L) -> Result<(), Stop>
    ensures { Takes T.Took T.Stopped to.old to.new result (all_faults (L.whole lookup.now)) }
{
    match CrossReferences::of(alloc, lookup) {
        Ok(known) => report_known(to, alloc, known),
        Err(Memory) => Err(Stop::Memory),
    }
}

/// Reports all diagnostics of a database, in the order of [`all_faults`], each as soon as it is found: for a message, those before
/// its overlaps, the overlaps of each signal with later ones, and those after them; and those of the entries at once.
pub fn report_all<T: Report>(alloc: Global, database: &Database, to: &mut T) -> Result<(), Stop>
    ensures { Takes T.Took T.Stopped to.old to.new result (all_faults database.now) }
{
    match Indexed::of(alloc, database) {
        Ok(indexed) => report_with(to, alloc, &indexed),
        Err(Memory) => Err(Stop::Memory),
    }
}

/// All diagnostics of a database, as [`all_faults`] has them, if its entries are already found by `lookup`.
pub fn all_faults_with<L: Lookup>(alloc: Global, lookup: &L) -> Result<Vec<Diagnostic>, Memory>
    ensures { IfOk result (λ found. found.items ≡ all_faults (L.whole lookup.now)) }
{
    let mut found = Vec::new(alloc);
    match report_with(&mut found, alloc, lookup) {
        Ok(()) => Ok(found),
        Err(_) => Err(Memory),
    }
}

/// All diagnostics of a database: those of each message in order, and then those of the entries. The time grows about as the
/// database and the list do, whatever CAN identifiers, names and keys are in it.
pub fn all_faults(alloc: Global, database: &Database) -> Result<Vec<Diagnostic>, Memory>
    ensures { IfOk result (λ found. found.items ≡ all_faults database.now) }
{
    match Indexed::of(alloc, database) {
        Ok(indexed) => all_faults_with(alloc, &indexed),
        Err(Memory) => Err(Memory),
    }
}

// The diagnostics of a message, by what is known of its database.
fn faults_in<'a, L: Lookup>(
    alloc: Global,
    known: &CrossReferences<'a, L>,
    message: &'a Message,
) -> Result<Vec<Diagnostic>, Memory>
    ensures { IfOk result (λ found. found.items ≡ message_faults known.now message.now) }
{
    let mut found = Vec::new(alloc);
    match report_message(&mut found, known, Occupancy::new(alloc), message) {
        Ok(_) => Ok(found),
        Err(_) => Err(Memory),
    }
}

// The diagnostics of the message at an index, by the index of its database's entries.
fn faults_at(alloc: Global, indexed: &Indexed<'_>, index: usize) -> Result<Vec<Diagnostic>, Memory>
    requires { index < length indexed.now.messages }
    ensures { IfOk result (λ found. Some found.items ≡ option_map (message_faults indexed.now) (slice_get indexed.now.messages
        index)) }
{
    match CrossReferences::of(alloc, indexed) {
        Ok(known) => faults_in(
            alloc,
            &known,
            &indexed.database().messages.as_slice()[index],
        ),
        Err(Memory) => Err(Memory),
    }
}

/// The diagnostics of the message at an index: codes 1 to 15. The whole database is indexed for it.
pub fn message_faults(
    alloc: Global,
    database: &Database,
    index: usize,
) -> Result<Vec<Diagnostic>, Memory>
    requires { index < length database.now.messages }
    ensures { IfOk result (λ found. Some found.items ≡ option_map (message_faults database.now) (slice_get database.now.messages
        index)) }
{
    match Indexed::of(alloc, database) {
        Ok(indexed) => faults_at(alloc, &indexed, index),
        Err(Memory) => Err(Memory),
    }
}
