//! Which message a frame belongs to.
ghost use Rattle.std.specs.Prelude.{◌≡◌, position};
ghost use Rattle.can_decode.specs.Choices.{has_number, in_group, group_index, index_of_number, chosen_index};

use can_entries::{group_in, group_number, is_extended};
use can_frames::Frame;
use dbc_records::{Database, Message};

fn has_number(message: &Message, number: u32) -> bool
    ensures { result ≡ has_number number message.now }
{
    message.head.number == number
}

// The first message with the CAN identifier.
fn exact_index(messages: &[Message], number: u32) -> Option<usize>
    ensures { result ≡ position (has_number number) messages.now }
{
    messages
        .iter()
        .position(|message| has_number(message, number))
}

// Whether a message is one of the parameter group. For most, the CAN identifier alone rules it out.
fn in_group(database: &Database, message: &Message, group: u32) -> bool
    ensures { result ≡ in_group database.now group message.now }
{
    match group_in(database, message.head.number) {
        Some(other) => other == group,
        None => false,
    }
}

fn first_in_group(database: &Database, group: u32) -> Option<usize>
    ensures { result ≡ position (in_group database.now group) database.now.messages }
{
    database
        .messages
        .as_slice()
        .iter()
        .position(|message| in_group(database, message, group))
}

// The first message of the parameter group of an extended (29-bit) CAN identifier.
fn group_index(database: &Database, number: u32) -> Option<usize>
    ensures { result ≡ group_index database.now number }
{
    if is_extended(number) {
        first_in_group(database, group_number(number))
    } else {
        None
    }
}

/// The index of the message that a CAN identifier goes to. It searches the messages, and allocates nothing.
#[tactic(auto, unfolding(crate::specs::Choices::index_of_number))]
pub(crate) fn index_of_number(database: &Database, number: u32) -> Option<usize>
    ensures { result ≡ index_of_number database.now number }
{
    match exact_index(database.messages.as_slice(), number) {
        Some(index) => Some(index),
        None => group_index(database, number),
    }
}

/// The index of the message that a frame goes to: the first with exactly its CAN identifier, otherwise the first J1939 message of
/// its parameter group. Only data frames go to one. It searches the messages, and allocates nothing.
#[tactic(auto, unfolding(crate::specs::Choices::chosen_index))]
pub fn choose(database: &Database, frame: &Frame) -> Option<usize>
    ensures { result ≡ chosen_index database.now frame.now }
{
    if frame.is_data() {
        index_of_number(database, frame.number())
    } else {
        None
    }
}
