use std::alloc::{AllocError, AllocFailed};
use thiserror::Error;

/// No memory was left. It is the one answer that no clause ties to a cause.
#[derive(Debug, Clone, Copy, PartialEq, Eq, Error)]
#[error("no memory is left")]
pub struct Memory;

impl From<AllocError> for Memory {
    fn from(_fault: AllocError) -> Memory {
        Memory
    }
}

impl<T: Drop> From<AllocFailed<T>> for Memory {
    fn from(_fault: AllocFailed<T>) -> Memory {
        Memory
    }
}
