//! The faults that reading a text ends with.
ghost use Rattle.std.specs.Prelude.{◌≡◌};
ghost use Rattle.dbc_tokens.specs.Causes.{cause_number, cause_word};

use std::fmt::{self, Formatter, Write};

/// Why a text is rejected. Each cause is displayed with its number, as in `2 Statement`.
#[derive(Clone, Copy, Debug, PartialEq, Eq)]
pub enum Cause {
    /// No token begins here, or a string has no end.
    Token = 1,
    /// This token can't be here, whatever follows it; or the text ends where it may not.
    Statement = 2,
    /// A second signal of the same name in a message.
    RepeatedSignal = 3,
    /// A message after the 65,535th.
    MessagesFull = 4,
    /// A signal of a message after its 999th.
    SignalsFull = 5,
    /// A whole number, or the value of a multiplexer indicator, outside its bound.
    Limit = 6,
    /// Out of memory, whatever the text.
    Memory = 90,
}

impl Cause {
    /// The cause's number.
    pub fn number(self) -> u8
        ensures { result ≡ cause_number self }
    {
        match self {
            Cause::Token => 1,
            Cause::Statement => 2,
            Cause::RepeatedSignal => 3,
            Cause::MessagesFull => 4,
            Cause::SignalsFull => 5,
            Cause::Limit => 6,
            Cause::Memory => 90,
        }
    }

    /// The cause's name, as above.
    pub fn word(self) -> &'static str
        ensures { result.now ≡ cause_word self }
    {
        match self {
            Cause::Token => "Token",
            Cause::Statement => "Statement",
            Cause::RepeatedSignal => "RepeatedSignal",
            Cause::MessagesFull => "MessagesFull",
            Cause::SignalsFull => "SignalsFull",
            Cause::Limit => "Limit",
            Cause::Memory => "Memory",
        }
    }
}

impl fmt::Display for Cause {
    fn fmt<W: Write>(&self, f: &mut Formatter<W>) -> fmt::Result {
        write!(f, "{} {}", self.number(), self.word())
    }
}

impl std::error::Error for Cause {}

/// Where and why reading a text ended. Lines count from 1, and a line ends at each LF; a fault because memory ran out has the line
/// 0. It is displayed as `line 3: 2 Statement`, and running out of memory as `90 Memory`.
#[derive(Clone, Copy, Debug, PartialEq, Eq)]
pub struct ReadFault {
    /// The line of the first byte of the token or location of the fault, or of the end of the text.
    pub line: u64,
    /// What is wrong there.
    pub cause: Cause,
}

impl fmt::Display for ReadFault {
    fn fmt<W: Write>(&self, f: &mut Formatter<W>) -> fmt::Result {
        match self.cause {
            Cause::Memory => write!(f, "{}", self.cause),
            _ => write!(f, "line {}: {}", self.line, self.cause),
        }
    }
}

impl std::error::Error for ReadFault {}
