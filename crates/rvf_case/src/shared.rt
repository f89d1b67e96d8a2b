//! That a case and a refusal may be shared among threads.

use crate::case::Case;
use crate::refusal::Refusal;

fn is_shared<T: Send + Sync>(_value: &T) {}

/// Jobs share a case.
pub(crate) fn cases_are_shared(case: &Case, refusal: &Refusal) {
    is_shared(case);
    is_shared(refusal);
}
