//! The message IDs of an edit.
ghost use Rattle.std.specs.Prelude.{◌≡◌, [], ◌∷◌};
ghost use Rattle.std.specs.Option.{option_map, option_map_or};
ghost use Rattle.std.specs.Prelude.{slice_get};
ghost use Rattle.session_log.specs.Touched.{number_at, edit_numbers, is_among};

use arrayvec::ArrayVec;
use dbc_edits::Edit;
use dbc_records::{Database, Message};

/// At most two message IDs.
pub type Numbers = ArrayVec<u32, 2>;

fn number_of(message: &Message) -> u32
    ensures { result ≡ message.now.head.number }
{
    message.head.number
}

fn message_at(database: &Database, index: usize) -> Option<&Message>
    ensures { option_map (λ message. message.now) result ≡ slice_get database.now.messages index }
{
    database.messages.as_slice().get(index)
}

fn one(number: u32) -> Numbers
    ensures { result.items ≡ number ∷ [] }
{
    let mut numbers = ArrayVec::new();
    numbers.push(number);
    numbers
}

fn number_at(database: &Database, index: usize) -> Numbers
    ensures { result.items ≡ number_at index database.now }
{
    match message_at(database, index) {
        Some(message) => one(number_of(message)),
        None => ArrayVec::new(),
    }
}

fn and_number_at(number: u32, database: &Database, index: usize) -> Numbers
    ensures { result.items ≡ number ∷ number_at index database.now }
{
    let mut numbers = one(number);
    if let Some(message) = message_at(database, index) {
        numbers.push(number_of(message));
    }
    numbers
}

/// The CAN identifiers whose messages or entries an edit may change. An edit of value tables has none.
pub fn edit_numbers(database: &Database, edit: &Edit) -> Numbers
    ensures { result.items ≡ edit_numbers database.now edit.now }
{
    match edit {
        Edit::AddMessage(_, head) => one(head.number),
        Edit::RemoveMessage(index) => number_at(database, *index),
        Edit::ChangeMessage(index, _) => number_at(database, *index),
        Edit::Renumber(index, number) => and_number_at(*number, database, *index),
        Edit::AddSignal(index, _, _) => number_at(database, *index),
        Edit::RemoveSignal(index, _) => number_at(database, *index),
        Edit::ChangeSignal(index, _) => number_at(database, *index),
        Edit::RenameSignal(index, _, _) => number_at(database, *index),
        Edit::SetMux(row) => one(row.number),
        Edit::SetValues(row) => one(row.number),
        Edit::DropMux(number, _) => one(*number),
        Edit::DropValues(number, _) => one(*number),
        Edit::DropTable(_) => ArrayVec::new(),
        Edit::SetTable(_) => ArrayVec::new(),
        Edit::SetAttribute(_, number, _) => one(*number),
        Edit::DropAttribute(_, number) => one(*number),
    }
}

/// Whether a CAN identifier is one of these.
pub fn is_among(numbers: &[u32], number: u32) -> bool
    ensures { result ≡ is_among numbers.now number }
{
    numbers.iter().any(|other| *other == number)
}
