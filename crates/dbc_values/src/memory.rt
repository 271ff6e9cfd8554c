//! Out of memory.

use std::alloc::{AllocError, AllocFailed};
use thiserror::Error;

/// An allocation failed: fault 90 of every call that allocates.
#[derive(Clone, Copy, Debug, PartialEq, Eq, Error)]
#[error("90 Memory")]
pub struct Memory;

impl From<AllocError> for Memory {
    fn from(_error: AllocError) -> Memory {
        Memory
    }
}

impl<T: Drop> From<AllocFailed<T>> for Memory {
    fn from(_error: AllocFailed<T>) -> Memory {
        Memory
    }
}
