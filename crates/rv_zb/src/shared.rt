//! That rows may be shared among threads.

use crate::row::ZbRow;

fn is_shared<T: Send + Sync>(_value: &T) {}

/// Rows may be shared.
pub(crate) fn are_shared(row: &ZbRow) {
    is_shared(row);
}
