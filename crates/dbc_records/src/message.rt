//! Messages.
ghost use Rattle.std.specs.Prelude.{◌≡◌, Some, None, if◌then◌else◌};
ghost use Rattle.std.specs.List.{list_any};
ghost use Rattle.std.specs.Str.{bytes_eq};
ghost use Rattle.dbc_records.specs.Records.{names_of, are_distinct, signals_fit};

use crate::head::Head;
use crate::signal::Signal;
use dbc_values::{Checked, Copied, List, Memory, same};
use std::marker::Model;

/// A message: its first line, and its signals in the order of the text. No two signals have the same name.
#[derive(Drop)]
pub struct Message {
    /// Its first line.
    pub head: Head,
    /// Its signals, of different names.
    pub signals: List<Signal>,
}

impl Model for Message {
    ghost use Rattle.dbc_records.specs.Records as records;

    ghost Value = { records.Message };

    ghost view = { λ a. record { head = a.head; signals = a.signals } };

    ghost invariant = { λ a. records.IsMessage (record { head = a.head; signals = a.signals }) };
}

fn has_name(name: &[u8], signals: &[Signal]) -> bool
    ensures { result ≡ list_any (bytes_eq name.now) (names_of signals.now) }
{
    for signal in signals {
        if same(name, signal.name.as_bytes()) {
            return true;
        }
    }
    false
}

// Compares each name with the later ones, without allocating.
fn names_differ(signals: &[Signal]) -> bool
    ensures { result ≡ are_distinct (names_of signals.now) }
{
    let mut rest = signals;
    while let [first, others @ ..] = rest {
        if has_name(first.name.as_bytes(), others) {
            return false;
        }
        rest = others;
    }
    true
}

impl Message {
    /// The most signals that a message may have.
    pub const MAX_SIGNALS: usize = 999;

    /// The message, or `None` if there are more than [`Message::MAX_SIGNALS`] signals or two of them have the same name.
    #[tactic(auto, unfolding(crate::specs::Records::signals_fit))]
    pub fn new(head: Head, signals: List<Signal>) -> Option<Message>
        ensures { result ≡ (if signals_fit signals then Some (record { head = head; signals = signals }) else None) }
    {
        if signals.len() > Message::MAX_SIGNALS || !names_differ(signals.as_slice()) {
            return None;
        }
        Some(Message { head, signals })
    }
}

impl Checked for Message {
    ghost use Rattle.dbc_records.specs.Records.{IsMessage};

    ghost IsValid = { IsMessage };
}

impl Copied for Message {
    fn copy(&self) -> Result<Message, Memory> {
        let head = self.head.copy()?;
        let signals = self.signals.copy()?;
        Ok(Message { head, signals })
    }
}
