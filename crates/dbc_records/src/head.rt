//! The first line of a message.
ghost use Rattle.std.specs.Prelude.{◌≡◌, Some, None, if◌then◌else◌};
ghost use Rattle.dbc_records.specs.Records.{head_fits};

use dbc_values::{Checked, Copied, Memory, Name};
use std::marker::Model;

/// The first line of a message: `BO_ number name: size sender`. Bit 31 of `number` marks an extended (29-bit) identifier, and
/// `size` is the length (DLC) in bytes.
#[derive(Drop)]
pub struct Head {
    /// The identifier, with bit 31 set if it is extended (29-bit).
    pub number: u32,
    /// The message's name.
    pub name: Name,
    /// The length (DLC): how many bytes of data the message has.
    pub size: u16,
    /// The node that sends it, or `Vector__XXX`.
    pub sender: Name,
}

impl Model for Head {
    ghost use Rattle.dbc_records.specs.Records as records;

    ghost Value = { records.Head };

    ghost view = { λ a. record { number = a.number; name = a.name; size = a.size; sender = a.sender } };

    ghost invariant = { λ a. records.IsHead (record { number = a.number; name = a.name; size = a.size; sender = a.sender }) };
}

impl Head {
    /// The greatest length of a message in bytes.
    pub const MAX_SIZE: u16 = 1785;

    /// The head, or `None` if the length is over [`Head::MAX_SIZE`].
    pub fn new(number: u32, name: Name, size: u16, sender: Name) -> Option<Head>
        ensures { result ≡ (if head_fits size then Some (record { number = number; name = name; size = size; sender = sender }) else
            None) }
    {
        if size > Head::MAX_SIZE {
            return None;
        }
        Some(Head {
            number,
            name,
            size,
            sender,
        })
    }
}

impl Checked for Head {
    ghost use Rattle.dbc_records.specs.Records.{IsHead};

    ghost IsValid = { IsHead };
}

impl Copied for Head {
    fn copy(&self) -> Result<Head, Memory> {
        let name = self.name.copy()?;
        let sender = self.sender.copy()?;
        Ok(Head {
            number: self.number,
            name,
            size: self.size,
            sender,
        })
    }
}
