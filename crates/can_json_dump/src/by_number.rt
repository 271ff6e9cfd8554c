//! Comments and attributes by the CAN identifiers of messages.
ghost use Rattle.std.specs.Prelude.{◌≡◌, ◌==◌, ◌<◌, ◌∷◌, ◌++◌, [], ℕ, false, IfOk, OnOk, filter, option_map, length, slice_get};
ghost use Rattle.std.specs.Prelude.{Some, if◌then◌else◌};
ghost use Rattle.std.specs.List.{find};
ghost use Rattle.std.specs.Option.{option_map_or};
ghost use Rattle.can_json_dump.specs.Subjects.{is_for, is_at, kept_at};

use crate::subject::Subject;
use dbc_records::{AttrRow, Comment, Target};
use dbc_values::Memory;
use std::alloc::Global;
use std::collections::BTreeMap;
use std::marker::Model;

/// Something that is about a node, a message or a signal.
pub trait Targeted: Drop {
    ghost use Rattle.dbc_records.specs.declared.target.Target as targets;

    // What it is about.
    ghost target_of: { Self → targets.Target };

    /// What it is about.
    fn target(&self) -> &Target
        ensures { result.now ≡ target_of self.now };
}

impl Targeted for Comment {
    ghost target_of = { λ comment. comment.target };

    fn target(&self) -> &Target {
        &self.target
    }
}

impl Targeted for AttrRow {
    ghost target_of = { λ row. row.target };

    fn target(&self) -> &Target {
        &self.target
    }
}

/// Entries of one CAN identifier, in order.
#[derive(Drop)]
pub struct Rows<'a, T: Targeted> {
    rows: Vec<&'a T>,
}

impl<'a, T: Targeted> Model for Rows<'a, T> {
    ghost use Rattle.std.specs.Prelude.{List, map};

    ghost Value = { List T };

    ghost view = { λ a. map (λ row. row.now) a.rows.items };
}

impl<'a, T: Targeted> Rows<'a, T> {
    fn new(alloc: Global) -> Rows<'a, T>
        ensures { result ≡ [] }
    {
        Rows {
            rows: Vec::new(alloc),
        }
    }

    fn push(&mut self, row: &'a T) -> Result<(), Memory>
        ensures { OnOk result (self.new ≡ self.old ++ row.now ∷ []) }
    {
        self.rows.push(row)?;
        Ok(())
    }

    /// How many there are.
    pub fn len(&self) -> usize
        ensures { result ≡ length self.now }
    {
        self.rows.len()
    }

    /// The entry at an index.
    pub fn row(&self, index: usize) -> &'a T
        requires { index < length self.now }
        ensures { Some result.now ≡ slice_get self.now index }
    {
        self.rows.as_slice()[index]
    }
}

/// Entries, and those of each message and its signals. Contracts see the entries.
#[derive(Drop)]
pub struct ByNumber<'a, T: Targeted> {
    rows: &'a [T],
    by_number: BTreeMap<u32, Rows<'a, T>>,
}

impl<'a, T: Targeted> Model for ByNumber<'a, T> {
    ghost use Rattle.std.specs.Prelude.{List, map};
    ghost use Rattle.can_json_dump.specs.Subjects.{IsByNumber};

    ghost Value = { List T };

    ghost view = { λ a. a.rows.now };

    ghost invariant = { λ a. IsByNumber (λ kept. kept) T.target_of a.by_number a.rows.now };
}

// The CAN identifier of the message that a statement is about, or that has the signal it is about.
fn number_of(target: &Target) -> Option<u32>
    ensures { (number : ℕ) → is_at number target.now ≡ option_map_or (λ other. other == number) result false }
{
    match target {
        Target::Message(number) => Some(*number),
        Target::Signal(number, _) => Some(*number),
        _ => None,
    }
}

// Keeps an entry for a CAN identifier.
fn keep_at<'a, T: Targeted>(
    alloc: Global,
    by_number: &mut BTreeMap<u32, Rows<'a, T>>,
    number: u32,
    row: &'a T,
) -> Result<(), Memory>
    ensures { OnOk result ((at : ℕ) → kept_at (λ kept. kept) by_number.new at
        ≡ kept_at (λ kept. kept) by_number.old at ++ (if number == at then row.now ∷ [] else [])) }
{
    let kept = by_number.entry(number)?.or_insert(Rows::new(alloc));
    kept.push(row)?;
    Ok(())
}

// Keeps an entry, if it is about a message or a signal.
fn keep<'a, T: Targeted>(
    alloc: Global,
    by_number: &mut BTreeMap<u32, Rows<'a, T>>,
    row: &'a T,
) -> Result<(), Memory>
    ensures { OnOk result ((at : ℕ) → kept_at (λ kept. kept) by_number.new at
        ≡ kept_at (λ kept. kept) by_number.old at
        ++ (if is_at at (T.target_of row.now) then row.now ∷ [] else [])) }
{
    match number_of(row.target()) {
        Some(number) => keep_at(alloc, by_number, number, row),
        None => Ok(()),
    }
}

// The first of some entries that is about a message or a signal.
fn first_for<'a, T: Targeted>(rows: &Rows<'a, T>, subject: &Subject<'_>) -> Option<&'a T>
    ensures { option_map (λ row. row.now) result ≡ find (λ row. is_for subject.now (T.target_of row)) rows.now }
{
    for index in 0..rows.len() {
        let row = rows.row(index);
        if subject.is_for(row.target()) {
            return Some(row);
        }
    }
    None
}

impl<'a, T: Targeted> ByNumber<'a, T> {
    /// All entries by their CAN identifiers.
    pub fn of(alloc: Global, rows: &'a [T]) -> Result<ByNumber<'a, T>, Memory>
        ensures { IfOk result (λ index. index ≡ rows.now) }
    {
        let mut by_number: BTreeMap<u32, Rows<'a, T>> = BTreeMap::new(alloc);
        for row in rows {
            keep(alloc, &mut by_number, row)?;
        }
        Ok(ByNumber { rows, by_number })
    }

    /// The entries of a message and its signals, in order, if there are any.
    pub fn at(&self, number: u32) -> Option<&Rows<'a, T>>
        ensures { option_map_or (λ kept. kept.now) result [] ≡ filter (λ row. is_at number (T.target_of row)) self.now }
    {
        self.by_number.get(&number)
    }

    /// The first entry of a message or a signal.
    pub fn first(&self, subject: &Subject<'_>) -> Option<&'a T>
        ensures { option_map (λ row. row.now) result ≡ find (λ row. is_for subject.now (T.target_of row)) self.now }
    {
        match self.at(subject.number) {
            Some(kept) => first_for(kept, subject),
            None => None,
        }
    }
}
