use fv_text::Memory;
use std::alloc::{AllocError, AllocFailed};

/// The search gives up: memory is wanting, or 32 bits are too few for a number, or the budget is used up.
#[derive(Debug, Clone, Copy, PartialEq, Eq)]
pub(crate) struct GaveUp;

impl From<Memory> for GaveUp {
    fn from(_fault: Memory) -> GaveUp {
        GaveUp
    }
}

impl From<AllocError> for GaveUp {
    fn from(_fault: AllocError) -> GaveUp {
        GaveUp
    }
}

impl<T: Drop> From<AllocFailed<T>> for GaveUp {
    fn from(_fault: AllocFailed<T>) -> GaveUp {
        GaveUp
    }
}
