//! That the public type may be shared among threads.

use crate::chosen::Chosen;

fn is_shared<T: Send + Sync>(_value: &T) {}

/// What is chosen may be shared.
pub(crate) fn are_shared(chosen: &Chosen) {
    is_shared(chosen);
}
