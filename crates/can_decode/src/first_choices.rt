//! Choices found by their keys, such as CAN identifiers or parameter groups of messages.
ghost use Rattle.std.specs.Prelude.{◌≡◌, ◌==◌, ℕ, List, IfOk, OnOk, Some, None, if◌then◌else◌};
ghost use Rattle.std.specs.List.Sorted.{IsNonDecreasingBy};
ghost use Rattle.std.specs.Option.{option_or};
ghost use Rattle.can_decode.specs.inner.FirstChoices.{key_of, first_choice, StartsAt};

use crate::message_search::Choice;
use dbc_values::Memory;
use std::marker::Model;

/// Keys and their choices, in the order of the keys. Of several with the same key, the first that was added is found.
#[derive(Drop)]
pub(crate) struct FirstChoices {
    entries: Vec<(u32, Choice)>,
}

impl Model for FirstChoices {
    ghost use Rattle.std.specs.Prelude.{ℕ, List};
    ghost use Rattle.std.specs.List.Sorted.{IsNonDecreasingBy};
    ghost use Rattle.can_decode.specs.inner.FirstChoices.{key_of};
    ghost use Rattle.can_decode.specs.declared.message_search.Choice.{Choice};

    ghost Value = { List (ℕ × Choice) };

    ghost view = { λ choices. choices.entries.items };

    ghost invariant = { λ choices. IsNonDecreasingBy key_of choices.entries.items };
}

/// Adds a choice with its key.
pub(crate) fn add_choice(
    choices: &mut Vec<(u32, Choice)>,
    key: u32,
    choice: Choice,
) -> Result<(), Memory>
    ensures { OnOk result ((other : ℕ) → first_choice other choices.new.items ≡ option_or (first_choice other choices.old.items)
        (if key == other then Some choice else None)) }
{
    choices.push((key, choice))?;
    Ok(())
}

// The entries from the first on whose key is not below this one.
fn from_key(entries: &[(u32, Choice)], key: u32) -> &[(u32, Choice)]
    requires { IsNonDecreasingBy key_of entries.now }
    ensures { StartsAt key entries.now result.now }
{
    let first = entries.partition_point(|entry| entry.0 < key);
    &entries[first..]
}

// The choice of an entry, if it has the key.
fn choice_at_key(entry: (u32, Choice), key: u32) -> Option<Choice>
    ensures { result ≡ (if entry.0 == key then Some entry.1 else None) }
{
    if entry.0 == key { Some(entry.1) } else { None }
}

impl FirstChoices {
    /// These choices, by a stable sort. If their keys are in order already, none moves, and it allocates nothing.
    pub(crate) fn of(mut entries: Vec<(u32, Choice)>) -> Result<FirstChoices, Memory>
        ensures { IfOk result (λ choices. (key : ℕ) → first_choice key choices ≡ first_choice key entries.items) }
    {
        entries.sort_by_key(|entry| entry.0)?;
        Ok(FirstChoices { entries })
    }

    /// The first choice with the key.
    pub(crate) fn get(&self, key: u32) -> Option<Choice>
        ensures { result ≡ first_choice key self.now }
    {
        match from_key(self.entries.as_slice(), key) {
            [first, ..] => choice_at_key(*first, key),
            [] => None,
        }
    }
}
