//! What can go wrong, as the program reports it.

use can_line_stream::StreamFault;
use dbc_tokens::ReadFault;
use thiserror::Error;

/// Why a run of `session` failed.
#[derive(Clone, Copy, Debug, PartialEq, Eq, Error)]
pub enum SessionFault {
    /// The database was rejected, or there was no memory for it. Nothing was read from the script, and nothing was written.
    #[error("{0}")]
    Read(ReadFault),
    /// The script or its replies met a fault.
    #[error("{0}")]
    Stream(StreamFault),
}
