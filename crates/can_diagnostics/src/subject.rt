//! What diagnostics are about.

use dbc_records::EntryKey;
use dbc_values::{Checked, Copied, Memory, Name};

/// What a diagnostic is about. A message is identified by its CAN identifier, with bit 31 set if it is extended
/// (29-bit), and its name.
#[derive(Drop)]
pub enum Subject {
    /// A message.
    Message(u32, Name),
    /// The sender of a message: the message, and the node.
    Sender(u32, Name, Name),
    /// A signal: the message, and the signal's name.
    Signal(u32, Name, Name),
    /// Two signals of a message: the message, and the signals' names in its order.
    Pair(u32, Name, Name, Name),
    /// A receiver of a signal: the message, the signal's name, and the node.
    Receiver(u32, Name, Name, Name),
    /// A value description of a signal: the message, the signal's name, and the value.
    Value(u32, Name, Name, i128),
    /// An entry.
    Row(EntryKey),
}

impl Checked for Subject {
    ghost use Rattle.can_diagnostics.specs.Diagnostics.{IsSubject};

    ghost IsValid = { IsSubject };
}

impl Copied for Subject {
    fn copy(&self) -> Result<Subject, Memory> {
        match self {
            Subject::Message(number, message) => Ok(Subject::Message(*number, message.copy()?)),
            Subject::Sender(number, message, node) => {
                let message = message.copy()?;
                Ok(Subject::Sender(*number, message, node.copy()?))
            }
            Subject::Signal(number, message, signal) => {
                let message = message.copy()?;
                Ok(Subject::Signal(*number, message, signal.copy()?))
            }
            Subject::Pair(number, message, first, second) => {
                let message = message.copy()?;
                let first = first.copy()?;
                Ok(Subject::Pair(*number, message, first, second.copy()?))
            }
            Subject::Receiver(number, message, signal, node) => {
                let message = message.copy()?;
                let signal = signal.copy()?;
                Ok(Subject::Receiver(*number, message, signal, node.copy()?))
            }
            Subject::Value(number, message, signal, value) => {
                let message = message.copy()?;
                Ok(Subject::Value(*number, message, signal.copy()?, *value))
            }
            Subject::Row(key) => Ok(Subject::Row(key.copy()?)),
        }
    }
}
