//! What plans of messages of one CAN identifier share.
ghost use Rattle.std.specs.Prelude.{◌≡◌, IfOk, IfSome, Some, map, filter, option_map};
ghost use Rattle.can_entries.specs.Rows.{rows_of, first_values, entries_of};
ghost use Rattle.can_layout.specs.Decoders.{entries_in};
ghost use Rattle.can_layout.specs.Shares.{row_of, is_shared};

use crate::named::Named;
use crate::shared_row::{NamedRow, SharedNumber};
use can_entries::{Index, Lookup, MessageRows};
use dbc_records::{Database, Message, ValueRow};
use dbc_text_buffer::TextBuffer;
use dbc_values::{Copied, Memory, Name};
use std::alloc::Global;
use std::marker::Model;
use std::rc::Rc;

// The value descriptions of an entry.
fn named_in(buffer: &mut TextBuffer, row: &ValueRow) -> Result<Rc<Named>, Memory>
    ensures { IfOk result (λ named. named.value ≡ row.now.entries) }
{
    let entries = row.entries.copy()?;
    let named = Named::of(buffer, entries)?;
    let named = Rc::new(buffer.allocator(), named)?;
    Ok(named)
}

// The same, if there is an entry.
fn named_of(buffer: &mut TextBuffer, row: Option<&ValueRow>) -> Result<Option<Rc<Named>>, Memory>
    ensures { IfOk result (λ named. entries_in (option_map (λ one. one.value) named) ≡ entries_of (option_map (λ row. row.now)
        row.entry)) }
{
    match row {
        Some(row) => Ok(Some(named_in(buffer, row)?)),
        None => Ok(None),
    }
}

// The CAN identifiers that several messages have. Without value descriptions there is no need to look for them.
fn shared_numbers(alloc: Global, database: &Database) -> Result<Vec<SharedNumber>, Memory> {
    if database.values.is_empty() {
        return Ok(Vec::new(alloc));
    }
    let mut numbers = Vec::with_capacity(alloc, database.messages.len())?;
    for message in database.messages.as_slice() {
        numbers.push(message.head.number)?;
    }
    numbers.sort_by_key(|number| *number)?;
    let mut shared = Vec::new(alloc);
    let mut last = None;
    for number in numbers {
        match last {
            Some(earlier) if earlier == number => shared.push(SharedNumber { number })?,
            _ => {}
        }
        last = Some(number);
    }
    Ok(shared)
}

// Whether several messages have a CAN identifier.
fn have_several(messages: &[Message], number: u32) -> bool {
    let mut has_one = false;
    for message in messages {
        if message.head.number == number {
            if has_one {
                return true;
            }
            has_one = true;
        }
    }
    false
}

// The CAN identifiers among these that several messages have.
fn shared_among(
    alloc: Global,
    messages: &[Message],
    numbers: &[u32],
) -> Result<Vec<SharedNumber>, Memory> {
    let mut shared = Vec::new(alloc);
    for number in numbers {
        if have_several(messages, *number) {
            shared.push(SharedNumber { number: *number })?;
        }
    }
    Ok(shared)
}

// Whether a CAN identifier is one of them.
fn is_shared(numbers: &Index<'_, SharedNumber>, number: u32) -> bool
    ensures { result ≡ is_shared numbers.now number }
{
    match numbers.first(number, b"") {
        Some(_) => true,
        None => false,
    }
}

// The entries that have one of the CAN identifiers, found by an index, and what plans share of them.
fn named_by<'a>(
    alloc: Global,
    rows: &'a [ValueRow],
    numbers: &Index<'_, SharedNumber>,
) -> Result<Vec<NamedRow<'a>>, Memory>
    ensures { IfOk result (λ named. map row_of named.items ≡ filter (λ row. is_shared numbers.now row.number) rows.now) }
{
    let mut all = Vec::new(alloc);
    let mut buffer = TextBuffer::new(alloc);
    for row in rows {
        if is_shared(numbers, row.number) {
            let named = named_in(&mut buffer, row)?;
            all.push(NamedRow { row, named })?;
        }
    }
    Ok(all)
}

// The entries that have one of the CAN identifiers, and what plans share of them.
fn named_rows<'a>(
    alloc: Global,
    rows: &'a [ValueRow],
    numbers: &[SharedNumber],
) -> Result<Vec<NamedRow<'a>>, Memory>
    ensures { IfOk result (λ named. map row_of named.items ≡ filter (λ row. is_shared numbers.now row.number) rows.now) }
{
    if numbers.is_empty() {
        return Ok(Vec::new(alloc));
    }
    let index = Index::of(alloc, numbers)?;
    named_by(alloc, rows, &index)
}

/// The entries of a database that plans share, with what they share of these: those of the CAN identifiers that several messages
/// have, so that their plans take no more memory than the text of these entries. Contracts see the database.
#[derive(Drop)]
pub struct SharedRows<'a> {
    database: &'a Database,
    numbers: Vec<SharedNumber>,
    values: Vec<NamedRow<'a>>,
}

impl<'a> Model for SharedRows<'a> {
    ghost use Rattle.dbc_records.specs.Databases.{Database as Whole};
    ghost use Rattle.can_layout.specs.Shares.{AreShared};

    ghost Value = { Whole };

    ghost view = { λ shared. shared.database.now };

    ghost invariant = { λ shared. AreShared shared.database.now.values shared.numbers.items shared.values.items };
}

impl<'a> SharedRows<'a> {
    // The shared entries of some CAN identifiers.
    fn by(
        alloc: Global,
        database: &'a Database,
        numbers: Vec<SharedNumber>,
    ) -> Result<SharedRows<'a>, Memory>
        ensures { IfOk result (λ shared. shared ≡ database.now) }
    {
        let values = named_rows(alloc, database.values.as_slice(), numbers.as_slice())?;
        Ok(SharedRows {
            database,
            numbers,
            values,
        })
    }

    /// The shared entries of a database.
    pub fn of(alloc: Global, database: &'a Database) -> Result<SharedRows<'a>, Memory>
        ensures { IfOk result (λ shared. shared ≡ database.now) }
    {
        let numbers = shared_numbers(alloc, database)?;
        SharedRows::by(alloc, database, numbers)
    }

    /// The shared entries of a database for plans of messages with these CAN identifiers. It searches all messages
    /// for each CAN identifier.
    pub fn among(
        alloc: Global,
        database: &'a Database,
        numbers: &[u32],
    ) -> Result<SharedRows<'a>, Memory>
        ensures { IfOk result (λ shared. shared ≡ database.now) }
    {
        let numbers = shared_among(alloc, database.messages.as_slice(), numbers)?;
        SharedRows::by(alloc, database, numbers)
    }
}

// Shared entries by their keys.
#[derive(Drop)]
struct SharedIndex<'a> {
    numbers: &'a [SharedNumber],
    values: Index<'a, NamedRow<'a>>,
}

/// A database whose entries are found by their keys, and of which plans share entries. Contracts see the database.
#[derive(Drop)]
pub struct Sharing<'a, L: Lookup> {
    lookup: &'a L,
    shared: Option<SharedIndex<'a>>,
}

impl<'a, L: Lookup> Model for Sharing<'a, L> {
    ghost use Rattle.std.specs.Prelude.{IfSome};
    ghost use Rattle.dbc_records.specs.Databases.{Database as Whole};
    ghost use Rattle.can_layout.specs.Shares.{AreShared};

    ghost Value = { Whole };

    ghost view = { λ sharing. L.whole sharing.lookup.now };

    ghost invariant = { λ sharing. IfSome sharing.shared (λ shared. AreShared (L.whole sharing.lookup.now).values shared.numbers.now
        shared.values) };
}

impl<'a, L: Lookup> Sharing<'a, L> {
    /// One of which no entries are shared.
    pub(crate) fn none(lookup: &'a L) -> Sharing<'a, L>
        ensures { result ≡ L.whole lookup.now }
    {
        Sharing {
            lookup,
            shared: None,
        }
    }

    /// One of which these entries are shared.
    pub fn of(
        alloc: Global,
        lookup: &'a L,
        rows: &'a SharedRows<'a>,
    ) -> Result<Sharing<'a, L>, Memory>
        requires { rows.now ≡ L.whole lookup.now }
        ensures { IfOk result (λ sharing. sharing ≡ L.whole lookup.now) }
    {
        let shared = SharedIndex {
            numbers: rows.numbers.as_slice(),
            values: Index::of(alloc, rows.values.as_slice())?,
        };
        Ok(Sharing {
            lookup,
            shared: Some(shared),
        })
    }

    /// What finds the entries.
    pub fn lookup(&self) -> &'a L
        ensures { L.whole result.now ≡ self.now }
    {
        self.lookup
    }

    // The `VAL_` entry of a signal, if plans share it.
    fn shared_row(&self, number: u32, signal: &Name) -> Option<&'a NamedRow<'a>>
        ensures { IfSome result (λ named. first_values signal.now (rows_of number self.now) ≡ Some (row_of named.now)) }
    {
        let shared = self.shared.as_ref()?;
        shared.values.first(number, signal.as_bytes())
    }

    // The value descriptions of a signal.
    fn named(
        &self,
        buffer: &mut TextBuffer,
        number: u32,
        signal: &Name,
    ) -> Result<Option<Rc<Named>>, Memory>
        ensures { IfOk result (λ named. entries_in (option_map (λ one. one.value) named) ≡ entries_of (first_values signal.now
            (rows_of number self.now))) }
    {
        match self.shared_row(number, signal) {
            Some(shared) => Ok(Some(shared.named.clone()?)),
            None => named_of(buffer, self.lookup.values(number, signal)),
        }
    }
}

/// The entries of one message ID, of which plans share some.
#[derive(Drop)]
pub(crate) struct PlanRows<'a, L: Lookup> {
    sharing: &'a Sharing<'a, L>,
    number: u32,
}

impl<'a, L: Lookup> Model for PlanRows<'a, L> {
    ghost use Rattle.can_entries.specs.Rows.{SignalRows, rows_of};

    ghost Value = { SignalRows };

    ghost view = { λ rows. rows_of rows.number rows.sharing.now };
}

impl<'a, L: Lookup> PlanRows<'a, L> {
    /// The entries of a CAN identifier.
    pub(crate) fn of(sharing: &'a Sharing<'a, L>, number: u32) -> PlanRows<'a, L>
        ensures { result ≡ rows_of number sharing.now }
    {
        PlanRows { sharing, number }
    }

    /// The entries themselves.
    pub(crate) fn rows(&self) -> MessageRows<'a, L>
        ensures { result ≡ self.now }
    {
        MessageRows::of(self.sharing.lookup(), self.number)
    }

    /// The value descriptions of a signal. Their texts are made in the buffer.
    pub(crate) fn named(
        &self,
        buffer: &mut TextBuffer,
        signal: &Name,
    ) -> Result<Option<Rc<Named>>, Memory>
        ensures { IfOk result (λ named. entries_in (option_map (λ one. one.value) named) ≡ entries_of (first_values signal.now
            self.now)) }
    {
        self.sharing.named(buffer, self.number, signal)
    }
}
