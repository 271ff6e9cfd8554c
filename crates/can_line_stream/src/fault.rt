//! Why a stream of lines ends.

use thiserror::Error;

/// Why a stream of lines ended before its input did.
#[derive(Clone, Copy, Debug, PartialEq, Eq, Error)]
pub enum StreamFault {
    /// A line has more bytes than a line may have, its CR counted and its LF not.
    #[error("40 LongLine")]
    LongLine,
    /// The source failed.
    #[error("41 Read")]
    Read,
    /// The sink failed.
    #[error("42 Write")]
    Write,
    /// An allocation failed.
    #[error("90 Memory")]
    Memory,
}
