//! The diagnostics of messages, with their locations.
ghost use Rattle.std.specs.Prelude.{◌≡◌, ◌++◌, IfOk, OnOk, map};
ghost use Rattle.can_check.specs.MessageFaults.{message_faults};
ghost use Rattle.can_findings.specs.declared.finding.Location.TheVariants as locations;
ghost use Rattle.can_findings.specs.RowStarts.{key_start, start_of_key};
ghost use Rattle.can_findings.specs.MessageLocations.{signal_start, signal_starts, rows_at_fault, start_or, location_of};
ghost use Rattle.can_findings.specs.MessageLocations.{findings_in};
ghost use Rattle.can_findings.specs.MessageLocations.{message_findings};

use crate::beginnings::{after_first, first_start, no_start, parted};
use crate::finding::{Finding, Location};
use crate::row_starts::{KeyedStarts, RowStart, start_in};
use can_check::{Code, Diagnostic, Occupancy, Subject, report_message};
use can_entries::{Index, Lookup};
use can_references::CrossReferences;
use dbc_reader::{Start, Starts};
use dbc_records::{Message, Signal};
use dbc_values::{Memory, Name};
use std::alloc::Global;

// A message, and where it and its signals begin.
#[derive(Clone, Copy)]
struct LocatedMessage<'m, 'l> {
    message: &'m Message,
    start: Start,
    signals: &'l [Start],
}

// The same, with an index of where its signals begin by their names.
#[derive(Drop)]
struct Named<'a> {
    message: &'a Message,
    start: Start,
    signals: &'a [Start],
    index: Index<'a, RowStart<'a>>,
    ghost indexed: { map key_start index ≡ signal_starts message.now.signals signals.now },
}

// The names of a message's signals, each with where the signal begins.
fn signal_starts<'a>(
    alloc: Global,
    signals: &'a [Signal],
    starts: &[Start],
) -> Result<Vec<RowStart<'a>>, Memory>
    ensures { IfOk result (λ made. map key_start made.items ≡ signal_starts signals.now starts.now) }
{
    let mut made = Vec::new(alloc);
    let (mut left, mut further) = (signals, starts);
    'signals: while let [signal, others @ ..] = left {
        made.push(RowStart {
            number: 0,
            signal: signal.name.as_bytes(),
            start: first_start(further),
        })?;
        (left, further) = (others, after_first(further));
    }
    Ok(made)
}

// Where the signal of the name begins.
fn signal_start(name: &Name, here: &Named<'_>) -> Start
    ensures { result ≡ signal_start name.now here.now.message.now.signals here.now.signals.now }
{
    match start_in(&here.index, 0, name) {
        Some(start) => start,
        None => no_start(),
    }
}

// Where the entry at fault begins, if the code is reported of a signal and is about an entry.
fn start_at_fault(rows: &KeyedStarts<'_>, code: Code, number: u32, signal: &Name) -> Option<Start>
    ensures { result ≡ start_of_key number signal.now (rows_at_fault code rows.now) }
{
    match code {
        Code::NoSwitch | Code::BadMuxRow | Code::SwitchLoop => rows.mux(number, signal),
        Code::Float => rows.float(number, signal),
        _ => None,
    }
}

// Where the entry begins, if there is one, otherwise the signal.
fn start_or(row_start: Option<Start>, here: &Named<'_>, signal: &Name) -> Location
    ensures { result ≡ locations.One (start_or row_start (signal_start signal.now here.now.message.now.signals
        here.now.signals.now)) }
{
    match row_start {
        Some(start) => Location::One(start),
        None => Location::One(signal_start(signal, here)),
    }
}

// Where two signals begin.
fn both_of(here: &Named<'_>, first: &Name, second: &Name) -> Location
    ensures { result ≡ locations.Both (signal_start first.now here.now.message.now.signals here.now.signals.now)
        (signal_start second.now here.now.message.now.signals here.now.signals.now) }
{
    Location::Both(signal_start(first, here), signal_start(second, here))
}

// Where that which a diagnostic of a message is about begins.
fn location_of(code: Code, subject: &Subject, here: &Named<'_>, rows: &KeyedStarts<'_>) -> Location
    ensures { result ≡ location_of rows.now here.now.message.now.signals here.now.start here.now.signals.now code subject.now }
{
    match subject {
        Subject::Message(..) | Subject::Sender(..) | Subject::Row(_) => Location::One(here.start),
        Subject::Signal(number, _, signal) => {
            start_or(start_at_fault(rows, code, *number, signal), here, signal)
        }
        Subject::Receiver(_, _, signal, _) => start_or(None, here, signal),
        Subject::Value(number, _, signal, _) => {
            start_or(rows.values(*number, signal), here, signal)
        }
        Subject::Pair(_, _, first, second) => both_of(here, first, second),
    }
}

// Adds diagnostics of a message, each with its location.
fn push_findings(
    findings: &mut Vec<Finding>,
    here: &Named<'_>,
    rows: &KeyedStarts<'_>,
    found: Vec<Diagnostic>,
) -> Result<(), Memory>
    ensures { OnOk result (findings.new.items ≡ findings.old.items ++ map (findings_in rows.now here.now.message.now.signals
        here.now.start
        here.now.signals.now)
        found.items) }
{
    for diagnostic in found {
        let location = location_of(diagnostic.code, &diagnostic.subject, here, rows);
        findings.push(Finding {
            location,
            diagnostic,
        })?;
    }
    Ok(())
}

// Adds diagnostics of a message whose signals begin there.
fn push_found(
    findings: &mut Vec<Finding>,
    here: &LocatedMessage<'_, '_>,
    named: &[RowStart<'_>],
    rows: &KeyedStarts<'_>,
    found: Vec<Diagnostic>,
) -> Result<(), Memory>
    requires { map key_start named.now ≡ signal_starts here.now.message.now.signals here.now.signals.now }
    ensures { OnOk result (findings.new.items ≡ findings.old.items ++ map (findings_in rows.now here.now.message.now.signals
        here.now.start
        here.now.signals.now)
        found.items) }
{
    let index = Index::of(*findings.allocator(), named)?;
    let named = Named {
        message: here.message,
        start: here.start,
        signals: here.signals,
        index,
    };
    push_findings(findings, &named, rows, found)
}

// Adds the diagnostics of a message. The table for overlaps is empty before and after.
fn push_message<'a, L: Lookup>(
    findings: &mut Vec<Finding>,
    known: &CrossReferences<'a, L>,
    occupancy: Occupancy,
    here: &LocatedMessage<'a, '_>,
    rows: &KeyedStarts<'_>,
) -> Result<Occupancy, Memory>
    ensures { OnOk result (findings.new.items ≡ findings.old.items ++ map (findings_in rows.now here.now.message.now.signals
        here.now.start
        here.now.signals.now)
        (message_faults known.now here.now.message.now)) }
{
    let mut found = Vec::new(occupancy.allocator());
    let Ok(occupancy) = report_message(&mut found, known, occupancy, here.message) else {
        return Err(Memory);
    };
    if found.is_empty() {
        return Ok(occupancy);
    }
    let message = here.message;
    let signals = message.signals.as_slice();
    let named = signal_starts(occupancy.allocator(), signals, here.signals)?;
    push_found(findings, here, named.as_slice(), rows, found)?;
    Ok(occupancy)
}

/// Adds the diagnostics of messages, in order.
pub(crate) fn push_messages<'a, L: Lookup>(
    findings: &mut Vec<Finding>,
    known: &CrossReferences<'a, L>,
    messages: &'a [Message],
    starts: &Starts,
    rows: &KeyedStarts<'_>,
) -> Result<(), Memory>
    ensures { OnOk result (findings.new.items ≡ findings.old.items ++ message_findings known.now rows.now messages.now
        starts.now.messages starts.now.signals) }
{
    let mut occupancy = Occupancy::new(*findings.allocator());
    let (mut left, mut heads) = (messages, starts.messages.as_slice());
    let mut further = starts.signals.as_slice();
    'messages: while let [message, others @ ..] = left {
        let (signals, after) = parted(further, message.signals.len());
        let start = first_start(heads);
        let here = LocatedMessage {
            message,
            start,
            signals,
        };
        occupancy = push_message(findings, known, occupancy, &here, rows)?;
        (left, heads, further) = (others, after_first(heads), after);
    }
    Ok(())
}
