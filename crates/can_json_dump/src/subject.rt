//! What comments and attributes are shown with.
ghost use Rattle.std.specs.Prelude.{◌≡◌, option_map};
ghost use Rattle.can_json_dump.specs.Subjects.{is_for, is_for_signal};

use dbc_records::Target;
use dbc_values::{Name, same};
use std::marker::Model;

/// A message by its CAN identifier, or a signal of it by its name.
#[derive(Drop)]
pub struct Subject<'a> {
    /// The CAN identifier of the message.
    pub number: u32,
    /// The name of the signal, or none for the message itself.
    pub signal: Option<&'a Name>,
}

impl<'a> Model for Subject<'a> {
    ghost use Rattle.std.specs.Prelude.{option_map};
    ghost use Rattle.can_json_dump.specs.Subjects as subjects;

    ghost Value = { subjects.Subject };

    ghost view = { λ a. record { number = a.number; signal = option_map (λ name. name.now) a.signal } };
}

fn is_for_signal(number: u32, name: &Name, target: &Target) -> bool
    ensures { result ≡ is_for_signal number name.now target.now }
{
    match target {
        Target::Signal(other, signal) => {
            *other == number && same(signal.as_bytes(), name.as_bytes())
        }
        _ => false,
    }
}

impl<'a> Subject<'a> {
    /// Whether a statement is about it.
    pub fn is_for(&self, target: &Target) -> bool
        ensures { result ≡ is_for self.now target.now }
    {
        match self.signal {
            Some(name) => is_for_signal(self.number, name, target),
            None => target.is_for_message(self.number),
        }
    }
}
