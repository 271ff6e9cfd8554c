//! What CAN identifiers go to.
ghost use Rattle.std.specs.Prelude.{◌≡◌, slice_get, IfOk};
ghost use Rattle.std.specs.Option.{option_map};
ghost use Rattle.can_entries.specs.Groups.{is_group_number};
ghost use Rattle.can_decode.specs.Choices.{is_group_message, choice_at, choice_of};

use crate::choice::index_of_number;
use can_entries::group_in;
use dbc_records::{Database, Message};
use dbc_values::Memory;

/// What a CAN identifier goes to.
#[derive(Clone, Copy, Debug, PartialEq, Eq)]
pub struct Choice {
    /// The index of the message.
    pub index: usize,
    /// Whether it is a J1939 message.
    pub group: bool,
}

/// What finds the message of a CAN identifier. It may cache what it found.
pub trait MessageSearch: Drop {
    ghost use Rattle.dbc_records.specs.Databases.{Database};

    // The database of the messages.
    ghost whole: { Self → Database };

    /// What the CAN identifier goes to. Only an implementation that caches allocates.
    fn choice(&mut self, number: u32) -> Result<Option<Choice>, Memory>
        ensures choice { IfOk result (λ choice. choice ≡ choice_of (whole self.old) number) }
        ensures same { whole self.new ≡ whole self.old };
}

/// The messages of a database.
pub(crate) fn messages_of(database: &Database) -> &[Message]
    ensures { result.now ≡ database.now.messages }
{
    database.messages.as_slice()
}

/// The CAN identifier of a message.
pub(crate) fn number_of(message: &Message) -> u32
    ensures { result ≡ message.now.head.number }
{
    message.head.number
}

// Whether messages of the CAN identifier are J1939 messages.
fn is_group(database: &Database, number: u32) -> bool
    ensures { result ≡ is_group_number number database.now }
{
    group_in(database, number).is_some()
}

/// The message at an index.
pub fn message_at(database: &Database, index: usize) -> Option<&Message>
    ensures { option_map (λ message. message.now) result ≡ slice_get database.now.messages index }
{
    messages_of(database).get(index)
}

fn is_group_message(database: &Database, message: Option<&Message>) -> bool
    ensures { result ≡ is_group_message database.now (option_map (λ message. message.now) message.entry) }
{
    match message {
        Some(message) => is_group(database, message.head.number),
        None => false,
    }
}

/// The choice of the message at an index. It searches the attributes of the database.
pub fn choice_at(database: &Database, index: usize) -> Choice
    ensures { result ≡ choice_at database.now index }
{
    let message = message_at(database, index);
    let group = is_group_message(database, message);
    Choice { index, group }
}

/// The messages of a database, searched for each CAN identifier.
#[derive(Drop)]
pub struct LinearSearch<'a> {
    /// The database.
    pub database: &'a Database,
}

impl<'a> LinearSearch<'a> {
    #[tactic(auto, unfolding(crate::specs::Choices::choice_of))]
    fn find(&self, number: u32) -> Option<Choice>
        ensures { result ≡ choice_of self.now.database.now number }
    {
        let index = index_of_number(self.database, number)?;
        Some(choice_at(self.database, index))
    }
}

impl<'a> MessageSearch for LinearSearch<'a> {
    ghost whole = { λ search. search.database.now };

    fn choice(&mut self, number: u32) -> Result<Option<Choice>, Memory> {
        Ok(self.find(number))
    }
}
