//! An index of the messages of a database by their CAN identifiers and by their parameter groups.
ghost use Rattle.std.specs.Prelude.{◌≡◌, ℕ, IfOk, OnOk, Some, None, if◌then◌else◌};
ghost use Rattle.std.specs.Option.{option_or, is_some};
ghost use Rattle.can_decode.specs.Choices.{is_group};
ghost use Rattle.can_decode.specs.inner.FirstChoices.{first_choice};
ghost use Rattle.can_decode.specs.MessageIndexes.{IsIndexOf};

use crate::first_choices::{FirstChoices, add_choice};
use crate::message_search::{Choice, number_of};
use can_entries::{Indexed, Lookup, group_in};
use dbc_records::{Database, Message};
use dbc_values::Memory;
use std::alloc::Global;

/// The first message of each CAN identifier and of each parameter group. CAN identifiers are compared, not hashed, so no database,
/// however crafted, makes it slow.
#[derive(Drop)]
pub struct MessageIndex {
    pub(crate) exact: FirstChoices,
    pub(crate) grouped: FirstChoices,
}

// Adds a choice with its parameter group, if there is one.
fn add_choice_of_group(
    choices: &mut Vec<(u32, Choice)>,
    group: Option<u32>,
    choice: Choice,
) -> Result<(), Memory>
    ensures { OnOk result ((other : ℕ) → first_choice other choices.new.items ≡ option_or (first_choice other choices.old.items)
        (if is_group other group then Some choice else None)) }
{
    match group {
        Some(group) => add_choice(choices, group, choice),
        None => Ok(()),
    }
}

fn choice_of_group(index: usize, group: Option<u32>) -> Choice
    ensures { result ≡ record { index = index; group = is_some group } }
{
    Choice {
        index,
        group: group.is_some(),
    }
}

fn messages_by<L: Lookup>(lookup: &L) -> &[Message]
    ensures { result.now ≡ (L.whole lookup.now).messages }
{
    lookup.database().messages.as_slice()
}

impl MessageIndex {
    /// The index of a database whose entries are found by `lookup`.
    pub fn by<L: Lookup>(alloc: Global, lookup: &L) -> Result<MessageIndex, Memory>
        ensures { IfOk result (λ index. IsIndexOf (L.whole lookup.now) index) }
    {
        let messages = messages_by(lookup);
        let mut by_number: Vec<(u32, Choice)> = Vec::with_capacity(alloc, messages.len())?;
        let mut by_group: Vec<(u32, Choice)> = Vec::new(alloc);
        for (index, message) in messages.iter().enumerate() {
            let number = number_of(message);
            let group = group_in(lookup, number);
            let choice = choice_of_group(index, group);
            add_choice(&mut by_number, number, choice)?;
            add_choice_of_group(&mut by_group, group, choice)?;
        }
        let exact = FirstChoices::of(by_number)?;
        let grouped = FirstChoices::of(by_group)?;
        Ok(MessageIndex { exact, grouped })
    }

    /// The index of a database.
    pub fn of(alloc: Global, database: &Database) -> Result<MessageIndex, Memory>
        ensures { IfOk result (λ index. IsIndexOf database.now index) }
    {
        let indexed = Indexed::of(alloc, database)?;
        MessageIndex::by(alloc, &indexed)
    }
}
