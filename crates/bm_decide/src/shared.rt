//! That the public types may be shared among threads.

use crate::verdict::Verdict;

fn is_shared<T: Send + Sync>(_value: &T) {}

/// Verdicts may be shared.
pub(crate) fn are_shared(verdict: &Verdict) {
    is_shared(verdict);
}
