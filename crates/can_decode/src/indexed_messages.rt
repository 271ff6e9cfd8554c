//! The messages of a database, found by their CAN identifiers and by their parameter groups.
ghost use Rattle.std.specs.Prelude.{◌≡◌, None, if◌then◌else◌};
ghost use Rattle.can_entries.specs.Groups.{is_extended, group_number_of};
ghost use Rattle.can_decode.specs.Choices.{choice_of, frame_choice};
ghost use Rattle.can_decode.specs.MessageIndexes.{IsIndexOf, first_of_group};

use crate::message_index::MessageIndex;
use crate::message_search::{Choice, MessageSearch};
use can_entries::{group_number, is_extended};
use can_frames::Frame;
use dbc_records::Database;
use dbc_values::Memory;
use std::marker::Model;

/// What each CAN identifier goes to in a database, by an index of its messages.
#[derive(Drop)]
pub struct IndexedMessages<'a> {
    database: &'a Database,
    index: &'a MessageIndex,
}

impl<'a> Model for IndexedMessages<'a> {
    ghost use Rattle.dbc_records.specs.Databases.{Database};
    ghost use Rattle.can_decode.specs.MessageIndexes.{IsIndexOf};

    ghost Value = { Database };

    ghost view = { λ a. a.database.now };

    ghost invariant = { λ a. IsIndexOf a.database.now a.index.now };
}

impl<'a> IndexedMessages<'a> {
    /// The choices of a database, by the index of its messages.
    pub fn by(database: &'a Database, index: &'a MessageIndex) -> IndexedMessages<'a>
        requires { IsIndexOf database.now index.now }
        ensures { result ≡ database.now }
    {
        IndexedMessages { database, index }
    }

    /// The database.
    pub fn database(&self) -> &'a Database
        ensures { result.now ≡ self.now }
    {
        self.database
    }

    // What the parameter group of an extended (29-bit) CAN identifier goes to.
    fn of_group(&self, number: u32) -> Option<Choice>
        ensures { result ≡ (if is_extended number then first_of_group self.now self.now.messages (group_number_of number) else
            None) }
    {
        if is_extended(number) {
            self.index.grouped.get(group_number(number))
        } else {
            None
        }
    }

    // What a CAN identifier goes to.
    #[tactic(auto, using(crate::proofs::Indexes::either), unfolding(crate::specs::Choices::choice_of, crate::specs::Choices::index_of_number))]
    fn find(&self, number: u32) -> Option<Choice>
        ensures { result ≡ choice_of self.now number }
    {
        match self.index.exact.get(number) {
            Some(choice) => Some(choice),
            None => self.of_group(number),
        }
    }

    /// What a frame goes to: the message whose index [`choose`](crate::choose) finds, and whether it is a J1939
    /// message. It allocates nothing.
    #[tactic(auto, unfolding(crate::specs::Choices::frame_choice))]
    pub fn choose(&self, frame: &Frame) -> Option<Choice>
        ensures { result ≡ frame_choice self.now frame.now }
    {
        if frame.is_data() {
            self.find(frame.number())
        } else {
            None
        }
    }
}

impl<'a> MessageSearch for IndexedMessages<'a> {
    ghost whole = { λ database. database };

    fn choice(&mut self, number: u32) -> Result<Option<Choice>, Memory> {
        Ok(self.find(number))
    }
}
