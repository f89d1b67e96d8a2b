//! That the public types may be shared among threads.

use rvf_report::Status;

fn is_shared<T: Send + Sync>(_value: &T) {}

pub(crate) fn status_is_shared(status: &Status) {
    is_shared(status);
}
