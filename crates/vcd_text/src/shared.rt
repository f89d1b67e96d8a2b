//! That the public types may be shared among threads.

use crate::fault::VcdFault;

fn is_shared<T: Send + Sync>(_value: &T) {}

/// Faults may be shared.
pub(crate) fn are_shared(fault: &VcdFault) {
    is_shared(fault);
}
