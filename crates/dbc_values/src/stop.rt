//! Why no more is taken.
ghost use Rattle.std.specs.Prelude.{◌≡◌};

use crate::memory::Memory;
use thiserror::Error;

/// Why something is sent no further: to a receiver of diagnostics, or to a sink of lines.
#[derive(Clone, Copy, Debug, PartialEq, Eq, Error)]
pub enum Stop {
    /// The receiver or the sink failed.
    #[error("42 Write")]
    Write,
    /// Out of memory.
    #[error("90 Memory")]
    Memory,
}

impl From<Memory> for Stop {
    ghost use Rattle.dbc_values.specs.declared.stop.Stop.TheVariants as stops;

    ghost from_gives = { λ _ stop. stop ≡ stops.Memory };

    fn from(_memory: Memory) -> Stop {
        Stop::Memory
    }
}
