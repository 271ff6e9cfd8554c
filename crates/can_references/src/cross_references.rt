//! What the whole of a database has on CAN identifiers, names and nodes, found by keys.
ghost use Rattle.std.specs.Prelude.{◌≡◌, ◌==◌, ◌++◌, false, [], IfOk, IfSome, OnOk, Some, map};
ghost use Rattle.std.specs.List.{flat_map};
ghost use Rattle.std.specs.List.Sorted.{IsPermutation};
ghost use Rattle.std.specs.Str.{bytes_eq};
ghost use Rattle.can_references.specs.SignalNames.{same_signal, named_signal};
ghost use Rattle.can_entries.specs.Rows.{rows_of, first_values, entries_of};
ghost use Rattle.can_entries.specs.Groups.{group_of};
ghost use Rattle.can_references.specs.Finding.{is_shared, occurs_in};
ghost use Rattle.can_references.specs.CrossReferences.{numbers_of, names_of, groups_of, signals_in, signals_of, defined_in};
ghost use Rattle.can_references.specs.CrossReferences.{perhaps};
ghost use Rattle.can_references.specs.CrossReferences.{is_known_node};
ghost use Rattle.can_references.specs.RawRanges.{numbers_out_of_range};
ghost use Rattle.can_references.specs.Values.{numbers_repeated, may_repeat};

use crate::many_rows::{LINEAR_SEARCH_LIMIT, ManyRows};
use crate::many_values::ManyValues;
use crate::names::Names;
use crate::numbers::Numbers;
use crate::signal_names::SignalNames;
use crate::values::{may_repeat, push_out_of_range, push_repeated};
use can_entries::{Lookup, group_in};
use dbc_records::{AttrDef, Database, Message, Signal};
use dbc_values::{Memory, Name, same};
use std::alloc::Global;
use std::marker::Model;

// The name that represents no node.
const NO_NODE: &[u8] = b"Vector__XXX";

/// The identifiers, names, parameter groups and signals of the messages of a database, its nodes and its attribute definitions, and
/// what finds its entries.
#[derive(Drop)]
pub struct CrossReferences<'a, L: Lookup> {
    lookup: &'a L,
    numbers: Numbers,
    names: Names<'a>,
    groups: Numbers,
    signals: SignalNames<'a>,
    nodes: Names<'a>,
    defined: Names<'a>,
    many: ManyRows<'a>,
}

impl<'a, L: Lookup> Model for CrossReferences<'a, L> {
    ghost use Rattle.dbc_records.specs.Databases.{Database};
    ghost use Rattle.can_references.specs.CrossReferences.{AreCrossReferences};

    ghost Value = { Database };

    ghost view = { λ a. L.whole a.lookup.now };

    ghost invariant = { λ a. AreCrossReferences (L.whole a.lookup.now) a.numbers a.names a.groups a.signals a.nodes a.defined
        a.many };
}

fn numbers_of(alloc: Global, messages: &[Message]) -> Result<Numbers, Memory>
    ensures { IfOk result (IsPermutation (map (λ message. message.head.number) messages.now)) }
{
    let mut numbers = Vec::with_capacity(alloc, messages.len())?;
    for message in messages {
        numbers.push(message.head.number)?;
    }
    Ok(Numbers::of(numbers))
}

fn names_of<'a>(alloc: Global, messages: &'a [Message]) -> Result<Names<'a>, Memory>
    ensures { IfOk result (IsPermutation (map (λ message. message.head.name) messages.now)) }
{
    let mut names = Vec::with_capacity(alloc, messages.len())?;
    for message in messages {
        names.push(message.head.name.as_bytes())?;
    }
    Names::of(alloc, names.as_slice())
}

// The parameter groups of messages of a database whose entries are found by `lookup`.
fn groups_of<L: Lookup>(alloc: Global, lookup: &L, messages: &[Message]) -> Result<Numbers, Memory>
    ensures { IfOk result (IsPermutation (flat_map (λ message. perhaps (group_of message.head.number (L.whole lookup.now)))
        messages.now)) }
{
    let mut numbers = Vec::new(alloc);
    for message in messages {
        if let Some(group) = group_in(lookup, message.head.number) {
            numbers.push(group)?;
        }
    }
    Ok(Numbers::of(numbers))
}

// Adds the signals of a message of a CAN identifier.
fn add_signals<'a>(
    names: &mut Vec<(u32, &'a [u8])>,
    number: u32,
    signals: &'a [Signal],
) -> Result<(), Memory>
    ensures { OnOk result (map named_signal names.new.items ≡ map named_signal names.old.items ++ map (λ signal. (
      number,
      signal.name,
    )) signals.now) }
{
    for signal in signals {
        names.push((number, signal.name.as_bytes()))?;
    }
    Ok(())
}

fn add_message<'a>(names: &mut Vec<(u32, &'a [u8])>, message: &'a Message) -> Result<(), Memory>
    ensures { OnOk result (map named_signal names.new.items ≡ map named_signal names.old.items ++ signals_in message.now) }
{
    add_signals(names, message.head.number, message.signals.as_slice())
}

fn signals_of<'a>(alloc: Global, messages: &'a [Message]) -> Result<SignalNames<'a>, Memory>
    ensures { IfOk result (IsPermutation (flat_map signals_in messages.now)) }
{
    let mut names = Vec::new(alloc);
    for message in messages {
        add_message(&mut names, message)?;
    }
    SignalNames::of(alloc, names.as_slice())
}

fn names_among<'a>(alloc: Global, names: &'a [Name]) -> Result<Names<'a>, Memory>
    ensures { IfOk result (IsPermutation names.now) }
{
    let mut added = Vec::with_capacity(alloc, names.len())?;
    for name in names {
        added.push(name.as_bytes())?;
    }
    Names::of(alloc, added.as_slice())
}

fn defined_in<'a>(alloc: Global, definitions: &'a [AttrDef]) -> Result<Names<'a>, Memory>
    ensures { IfOk result (IsPermutation (map (λ definition. definition.name) definitions.now)) }
{
    let mut names = Vec::with_capacity(alloc, definitions.len())?;
    for definition in definitions {
        names.push(definition.name.as_bytes())?;
    }
    Names::of(alloc, names.as_slice())
}

impl<'a, L: Lookup> CrossReferences<'a, L> {
    // The same. For `VAL_` entries with many value descriptions that several messages have, the findings are cached if their
    // CAN identifier is wanted.
    fn with(
        alloc: Global,
        lookup: &'a L,
        wanted: Option<&[u32]>,
    ) -> Result<CrossReferences<'a, L>, Memory>
        ensures { IfOk result (λ known. known ≡ L.whole lookup.now) }
    {
        let database = lookup.database();
        let messages = database.messages.as_slice();
        let numbers = numbers_of(alloc, messages)?;
        let names = names_of(alloc, messages)?;
        let groups = groups_of(alloc, lookup, messages)?;
        let signals = signals_of(alloc, messages)?;
        let nodes = names_among(alloc, database.nodes.as_slice())?;
        let defined = defined_in(alloc, database.definitions.as_slice())?;
        let many = ManyRows::of(alloc, &numbers, wanted, database.values.as_slice())?;
        Ok(CrossReferences {
            lookup,
            numbers,
            names,
            groups,
            signals,
            nodes,
            defined,
            many,
        })
    }

    /// The cross-references of a database whose entries are found by `lookup`.
    pub fn of(alloc: Global, lookup: &'a L) -> Result<CrossReferences<'a, L>, Memory>
        ensures { IfOk result (λ known. known ≡ L.whole lookup.now) }
    {
        CrossReferences::with(alloc, lookup, None)
    }

    /// The same, made to find the diagnostics of messages with these CAN identifiers. It also answers for others, but takes longer
    /// for their many value descriptions if several messages have them.
    pub fn among(
        alloc: Global,
        lookup: &'a L,
        numbers: &[u32],
    ) -> Result<CrossReferences<'a, L>, Memory>
        ensures { IfOk result (λ known. known ≡ L.whole lookup.now) }
    {
        CrossReferences::with(alloc, lookup, Some(numbers))
    }

    /// The database.
    pub fn database(&self) -> &'a Database
        ensures { result.now ≡ self.now }
    {
        self.lookup.database()
    }

    /// What finds the entries of the database.
    pub fn lookup(&self) -> &'a L
        ensures { L.whole result.now ≡ self.now }
    {
        self.lookup
    }

    /// The parameter group of the J1939 messages with the CAN identifier, if they are such.
    pub fn group_of(&self, number: u32) -> Option<u32>
        ensures { result ≡ group_of number self.now }
    {
        group_in(self.lookup, number)
    }

    /// Whether at least two messages have the CAN identifier.
    pub fn is_shared_number(&self, number: u32) -> bool
        ensures { result ≡ is_shared (λ a b. a == b) number (numbers_of self.now) }
    {
        self.numbers.is_shared(number)
    }

    /// Whether at least two messages have the name.
    pub fn is_shared_name(&self, name: &'a Name) -> bool
        ensures { result ≡ is_shared bytes_eq name.now (names_of self.now) }
    {
        self.names.is_shared(name.as_bytes())
    }

    /// Whether at least two messages are of the parameter group.
    pub fn is_shared_group(&self, group: u32) -> bool
        ensures { result ≡ is_shared (λ a b. a == b) group (groups_of self.now) }
    {
        self.groups.is_shared(group)
    }

    /// Whether a message has the CAN identifier.
    pub fn has_number(&self, number: u32) -> bool
        ensures { result ≡ occurs_in (λ a b. a == b) number (numbers_of self.now) }
    {
        self.numbers.has(number)
    }

    /// Whether a message of the CAN identifier has a signal of the name.
    pub fn has_signal(&self, number: u32, name: &'a [u8]) -> bool
        ensures { result ≡ occurs_in same_signal (number, name.now) (signals_of self.now) }
    {
        self.signals.has((number, name))
    }

    /// Whether the name is that of a node, or represents no node.
    pub fn is_known_node(&self, name: &'a [u8]) -> bool
        ensures { result ≡ is_known_node self.now name.now }
    {
        self.nodes.has(name) || same(name, NO_NODE)
    }

    /// Whether an attribute of the name is defined.
    pub fn is_defined(&self, name: &'a [u8]) -> bool
        ensures { result ≡ occurs_in bytes_eq name.now (defined_in self.now) }
    {
        self.defined.has(name)
    }

    // What is cached for the `VAL_` entry of a signal.
    #[inline(always)]
    fn many_values(&self, number: u32, signal: &'a Signal) -> Option<&ManyValues<'a>>
        ensures { IfSome result (λ many. first_values signal.now.name (rows_of number self.now) ≡ Some many.now) }
    {
        if self.many.is_empty() {
            return None;
        }
        let row = self.lookup.values(number, &signal.name)?;
        if row.entries.as_slice().len() <= LINEAR_SEARCH_LIMIT {
            return None;
        }
        self.many.kept(number, signal.name.as_bytes())
    }

    /// Adds the raw values of a signal's value descriptions that it never has, in the order of the text. Returns whether one of the
    /// raw values may be repeated.
    #[inline(always)]
    pub fn push_out_of_range(
        &self,
        found: &mut Vec<i128>,
        number: u32,
        signal: &'a Signal,
    ) -> Result<bool, Memory>
        ensures found { OnOk result (found.new.items ≡ found.old.items ++ numbers_out_of_range signal.now (entries_of
            (first_values signal.now.name (rows_of number self.now)))) }
        ensures flag { IfOk result (λ repeats. repeats ≡ may_repeat (entries_of (first_values signal.now.name (rows_of number
            self.now)))) }
        ensures none { IfOk result (λ repeats. repeats ≡ false → numbers_repeated (entries_of (first_values signal.now.name
            (rows_of number self.now))) ≡ []) }
    {
        if let Some(many) = self.many_values(number, signal) {
            many.push_out_of_range(found, signal)?;
            return Ok(many.may_repeat());
        }
        match self.lookup.values(number, &signal.name) {
            Some(row) => {
                push_out_of_range(found, signal, &row.entries)?;
                Ok(may_repeat(&row.entries))
            }
            None => Ok(false),
        }
    }

    /// Adds the raw values of a signal's value descriptions that occur earlier among them, in the order of the text.
    #[inline(always)]
    pub fn push_repeated(
        &self,
        found: &mut Vec<i128>,
        number: u32,
        signal: &'a Signal,
    ) -> Result<(), Memory>
        ensures { OnOk result (found.new.items ≡ found.old.items ++ numbers_repeated (entries_of
            (first_values signal.now.name (rows_of number self.now)))) }
    {
        if let Some(many) = self.many_values(number, signal) {
            return many.push_repeated(found);
        }
        match self.lookup.values(number, &signal.name) {
            Some(row) => push_repeated(found, &row.entries),
            None => Ok(()),
        }
    }
}
