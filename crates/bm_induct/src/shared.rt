//! That the public type may be shared among threads.

use crate::how::Rebuild;

fn is_shared<T: Send + Sync>(_value: &T) {}

/// What becomes of a net may be shared.
pub(crate) fn are_shared(how: &Rebuild) {
    is_shared(how);
}
