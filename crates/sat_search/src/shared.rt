//! That the public type may be shared among threads.

use crate::found::Found;

fn is_shared<T: Send + Sync>(_value: &T) {}

/// Answers may be shared.
pub(crate) fn are_shared(found: &Found) {
    is_shared(found);
}
