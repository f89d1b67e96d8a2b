//! That the public type may be shared among threads.

use crate::formula::Formula;

fn is_shared<T: Send + Sync>(_value: &T) {}

/// Formulas may be shared.
pub(crate) fn are_shared(formula: &Formula) {
    is_shared(formula);
}
