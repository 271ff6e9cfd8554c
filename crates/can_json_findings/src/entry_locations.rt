//! The lines that report where the entries are, and with them all lines of a database.
ghost use Rattle.std.specs.Prelude.{◌≡◌, ◌∷◌, ◌++◌, [], IfOk, OnOk, map};
ghost use Rattle.dbc_ranges.specs.Ranges.{range_of};
ghost use Rattle.can_findings.specs.Beginnings.{at_starts};
ghost use Rattle.can_findings.specs.RowLocations.{all_rows};
ghost use Rattle.can_json_findings.specs.Locations.{key_parts, entry_location, location_line, entry_lines, locations_text};

use crate::location::push_ranges;
use crate::message_locations::push_messages;
use crate::ranges::key_items;
use can_diagnostics::Subject;
use can_findings::{after_first, first_start};
use dbc_ranges::{Part, Range, range_of};
use dbc_reader::{Start, Starts};
use dbc_records::{Database, DatabaseEntry, EntryKey, EntryKind, EntryVisitor};
use dbc_values::Memory;
use std::alloc::Global;
use std::marker::Model;

// The range of the key of an entry that begins there, and that of the multiplexor that an entry of multiplexing names after it.
fn key_ranges(
    alloc: Global,
    text: &[u8],
    key: &EntryKey,
    start: Start,
) -> Result<Vec<Range>, Memory>
    ensures { IfOk result (λ ranges. ranges.items ≡ map (range_of text.now start) (key_parts key.now)) }
{
    let mut ranges = Vec::new(alloc);
    ranges.push(range_of(text, start, Part::Key(key_items(key))))?;
    match key {
        EntryKey::Mux(..) => ranges.push(range_of(text, start, Part::Multiplexor))?,
        _ => {}
    }
    Ok(ranges)
}

#[tactic(auto, unfolding(crate::specs::Locations::location_line))]
fn push_entry(lines: &mut Vec<u8>, text: &[u8], key: EntryKey, start: Start) -> Result<(), Memory>
    ensures { OnOk result (lines.new.items ≡ lines.old.items ++ location_line text.now (entry_location key start)) }
{
    let ranges = key_ranges(*lines.allocator(), text, &key, start)?;
    push_ranges(lines, &Subject::Row(key), ranges.as_slice())
}

// The line of an entry that begins there.
fn push_row<R: DatabaseEntry>(
    lines: &mut Vec<u8>,
    text: &[u8],
    row: &R,
    start: Start,
) -> Result<(), Memory>
    ensures { OnOk result (lines.new.items ≡ lines.old.items
        ++ location_line text.now (entry_location (R.key_of row.now) start)) }
{
    let key = row.owned_key()?;
    push_entry(lines, text, key, start)
}

// The lines of entries of one kind, which begin there.
fn push_entries<R: DatabaseEntry>(
    lines: &mut Vec<u8>,
    text: &[u8],
    rows: &[R],
    starts: &[Start],
) -> Result<(), Memory>
    ensures { OnOk result (lines.new.items ≡ lines.old.items
        ++ entry_lines text.now (at_starts (map R.key_of rows.now) starts.now)) }
{
    let (mut left, mut further) = (rows, starts);
    'rows: while let [row, others @ ..] = left {
        push_row(lines, text, row, first_start(further))?;
        (left, further) = (others, after_first(further));
    }
    Ok(())
}

// The lines of the entries seen so far, preceded by others.
#[derive(Drop)]
struct EntryLines<'a> {
    text: &'a [u8],
    starts: &'a Starts,
    lines: Vec<u8>,
}

impl<'a> Model for EntryLines<'a> {
    ghost use Rattle.can_json_findings.specs.Locations as locations;

    ghost Value = { locations.EntryLines };

    ghost view = { λ a. record { text = a.text.now; starts = a.starts.now; lines = a.lines.items } };
}

impl<'a> EntryVisitor<'a> for EntryLines<'a> {
    ghost use Rattle.can_json_findings.specs.Locations.{with_entries};

    ghost visited = { with_entries };

    fn visit<E: DatabaseEntry>(&mut self, kind: EntryKind, entries: &'a [E]) -> Result<(), Memory> {
        push_entries(&mut self.lines, self.text, entries, self.starts.of(kind))
    }
}

// These lines, and those of all entries.
#[tactic(auto, using(crate::proofs::Pushed::all_added))]
fn with_entry_lines<'a>(
    lines: Vec<u8>,
    text: &'a [u8],
    database: &'a Database,
    starts: &'a Starts,
) -> Result<Vec<u8>, Memory>
    ensures { IfOk result (λ all. all.items ≡ lines.items ++ entry_lines text.now (all_rows database.now starts.now)) }
{
    let mut entries = EntryLines {
        text,
        starts,
        lines,
    };
    database.visit_entries(&mut entries)?;
    Ok(entries.lines)
}

/// The lines of a database whose statements and signals begin there in its text: each message and its sender, followed by its
/// signals, each with its receivers; and then each entry, kind by kind in the order in which they are printed.
#[tactic(auto, unfolding(crate::specs::Locations::locations_text))]
pub fn location_lines(
    alloc: Global,
    text: &[u8],
    database: &Database,
    starts: &Starts,
) -> Result<Vec<u8>, Memory>
    ensures { IfOk result (λ lines. lines.items ≡ locations_text text.now database.now starts.now) }
{
    let messages = database.messages.as_slice();
    let heads = starts.messages.as_slice();
    let mut lines = Vec::new(alloc);
    push_messages(&mut lines, text, messages, heads, starts.signals.as_slice())?;
    with_entry_lines(lines, text, database, starts)
}
