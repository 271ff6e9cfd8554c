//! What comments and attributes are about.
ghost use Rattle.std.specs.Prelude.{◌≡◌};
ghost use Rattle.dbc_records.specs.Comments.{is_for_message};

use dbc_values::{Checked, Copied, Memory, Name};

/// What a comment or an attribute is about.
#[derive(Drop)]
pub enum Target {
    /// The whole database.
    Whole,
    /// A node: `BU_ name`.
    Node(Name),
    /// A message: `BO_ number`.
    Message(u32),
    /// A signal of a message: `SG_ number name`.
    Signal(u32, Name),
}

impl Target {
    /// Whether it is the message of this CAN identifier. A signal of that message isn't.
    pub fn is_for_message(&self, number: u32) -> bool
        ensures { result ≡ is_for_message number self.now }
    {
        match self {
            Target::Message(other) => *other == number,
            _ => false,
        }
    }
}

impl Checked for Target {
    ghost use Rattle.dbc_records.specs.Comments.{IsTarget};

    ghost IsValid = { IsTarget };
}

impl Copied for Target {
    fn copy(&self) -> Result<Target, Memory> {
        match self {
            Target::Whole => Ok(Target::Whole),
            Target::Node(name) => Ok(Target::Node(name.copy()?)),
            Target::Message(number) => Ok(Target::Message(*number)),
            Target::Signal(number, name) => Ok(Target::Signal(*number, name.copy()?)),
        }
    }
}
