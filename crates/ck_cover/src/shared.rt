//! That the public types may be shared among threads.

use crate::target::Target;

fn is_shared<T: Send + Sync>(_value: &T) {}

/// Targets may be shared.
pub(crate) fn are_shared(target: &Target) {
    is_shared(target);
}
