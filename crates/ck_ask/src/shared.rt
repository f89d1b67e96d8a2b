//! That the public types may be shared among threads.

use crate::question::Question;

fn is_shared<T: Send + Sync>(_value: &T) {}

/// Questions may be shared.
pub(crate) fn are_shared(question: &Question) {
    is_shared(question);
}
