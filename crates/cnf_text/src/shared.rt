//! That the public type may be shared among threads.

use crate::fault::DimacsFault;

fn is_shared<T: Send + Sync>(_value: &T) {}

/// Faults may be shared.
pub(crate) fn are_shared(fault: &DimacsFault) {
    is_shared(fault);
}
