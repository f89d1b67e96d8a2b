//! That the public types may be shared among threads.

use crate::counts::Counts;
use crate::wording::Wording;

fn is_shared<T: Send + Sync>(_value: &T) {}

/// Counts may be shared, and wordings.
pub(crate) fn are_shared(counts: &Counts, wording: &Wording) {
    is_shared(counts);
    is_shared(wording);
}
