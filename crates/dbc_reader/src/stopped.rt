//! Why a part of a text was not read.
ghost use Rattle.std.specs.Prelude.{◌≡◌};
ghost use Rattle.dbc_reader.specs.declared.stopped.Stopped.TheVariants as stops;

use dbc_tokens::{Cause, ReadFault};
use dbc_values::Memory;

/// Why reading stopped.
#[derive(Clone, Copy, Debug)]
pub(crate) enum Stopped {
    /// An allocation failed.
    Memory,
    /// The text has a fault.
    Fault(ReadFault),
}

impl From<Memory> for Stopped {
    ghost from_gives = { λ _ e. e ≡ stops.Memory };

    fn from(_error: Memory) -> Stopped {
        Stopped::Memory
    }
}

impl Stopped {
    /// A fault of the text in this line.
    pub fn at(line: u64, cause: Cause) -> Stopped
        ensures { result ≡ stops.Fault (record { line = line; cause = cause }) }
    {
        Stopped::Fault(ReadFault { line, cause })
    }
}
