//! The change of a message's first line.
ghost use Rattle.std.specs.Prelude.{◌≡◌, Some, None, if◌then◌else◌};
ghost use Rattle.dbc_records.specs.Records.{head_fits};

use dbc_records::Head;
use dbc_values::Name;
use std::marker::Model;

/// A message's whole first line except its CAN identifier, which has an edit of its own.
#[derive(Drop)]
pub struct Change {
    /// The message's new name.
    pub name: Name,
    /// The new length (DLC) in bytes.
    pub size: u16,
    /// Its new sender.
    pub sender: Name,
}

impl Model for Change {
    ghost use Rattle.dbc_edits.specs.Changes as changes;

    ghost Value = { changes.Change };

    ghost view = { λ a. record { name = a.name; size = a.size; sender = a.sender } };

    ghost invariant = { λ a. changes.IsChange (record { name = a.name; size = a.size; sender = a.sender }) };
}

impl Change {
    /// The change, or `None` if the length is over [`Head::MAX_SIZE`].
    pub fn new(name: Name, size: u16, sender: Name) -> Option<Change>
        ensures { result ≡ (if head_fits size then Some (record { name = name; size = size; sender = sender }) else None) }
    {
        if size > Head::MAX_SIZE {
            return None;
        }
        Some(Change { name, size, sender })
    }
}
