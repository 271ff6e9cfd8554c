//! Why an edit, or a line of a log, is refused.
ghost use Rattle.std.specs.Prelude.{◌≡◌};
ghost use Rattle.dbc_edits.specs.Refusals.{refusal_number, refusal_word};

use dbc_values::Memory;

/// Why a command of a session is refused. If several causes hold, that of the least number is reported; the numbers and
/// the words don't change.
#[derive(Clone, Copy, Debug, PartialEq, Eq)]
pub enum Refusal {
    /// No message is at the index, or has the CAN identifier.
    NoMessage,
    /// The index is after the end.
    BadPlace,
    /// The message has no such signal, or no message of the CAN identifier has it.
    NoSignal,
    /// The message has a signal of the name.
    SignalExists,
    /// The message has as many signals as it may have.
    SignalsFull,
    /// There are as many messages as there may be.
    MessagesFull,
    /// A message or an entry has the new CAN identifier.
    IdTaken,
    /// Another message has the old CAN identifier.
    IdShared,
    /// No entry has the key.
    NoRow,
    /// No definition has the attribute's name.
    NoDefinition,
    /// The session's log is full.
    LogFull,
    /// The line has too many bytes.
    LongLine,
    /// An entry of the message's CAN identifier uses the new name, for its signal or its multiplexor (switch).
    NameTaken,
    /// Another message of the CAN identifier has a signal of the old or of the new name.
    NameShared,
    /// Memory ran out.
    Memory,
}

impl Refusal {
    /// The refusal's number.
    pub fn number(self) -> u8
        ensures { result ≡ refusal_number self }
    {
        match self {
            Refusal::NoMessage => 20,
            Refusal::BadPlace => 21,
            Refusal::NoSignal => 22,
            Refusal::SignalExists => 23,
            Refusal::SignalsFull => 24,
            Refusal::MessagesFull => 25,
            Refusal::IdTaken => 26,
            Refusal::IdShared => 27,
            Refusal::NoRow => 28,
            Refusal::NoDefinition => 29,
            Refusal::LogFull => 30,
            Refusal::LongLine => 31,
            Refusal::NameTaken => 32,
            Refusal::NameShared => 33,
            Refusal::Memory => 90,
        }
    }

    /// The refusal's name, as above.
    pub fn word(self) -> &'static [u8]
        ensures { result.now ≡ refusal_word self }
    {
        match self {
            Refusal::NoMessage => b"NoMessage",
            Refusal::BadPlace => b"BadPlace",
            Refusal::NoSignal => b"NoSignal",
            Refusal::SignalExists => b"SignalExists",
            Refusal::SignalsFull => b"SignalsFull",
            Refusal::MessagesFull => b"MessagesFull",
            Refusal::IdTaken => b"IdTaken",
            Refusal::IdShared => b"IdShared",
            Refusal::NoRow => b"NoRow",
            Refusal::NoDefinition => b"NoDefinition",
            Refusal::LogFull => b"LogFull",
            Refusal::LongLine => b"LongLine",
            Refusal::NameTaken => b"NameTaken",
            Refusal::NameShared => b"NameShared",
            Refusal::Memory => b"Memory",
        }
    }
}

impl From<Memory> for Refusal {
    ghost use Rattle.dbc_edits.specs.declared.refusal.Refusal.TheVariants as refusals;

    ghost from_gives = { λ _ refusal. refusal ≡ refusals.Memory };

    fn from(_memory: Memory) -> Refusal {
        Refusal::Memory
    }
}
