//! That the public types may be shared among threads.

use crate::judged::Judged;

fn is_shared<T: Send + Sync>(_value: &T) {}

/// What questions come to may be shared.
pub(crate) fn are_shared(judged: &Judged) {
    is_shared(judged);
}
