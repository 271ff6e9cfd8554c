//! How signals are searched.

use crate::hashed_signals::HashedSignals;
use crate::numbered_signals::NumberedSignals;

/// Signals, and how one of them is found.
#[derive(Drop)]
pub(crate) enum SignalSearch<'a> {
    /// By its message ID, and then by name: few have the same message ID.
    ByNumber(NumberedSignals<'a>),
    /// By a hash of message ID and name.
    ByHash(HashedSignals<'a>),
}
