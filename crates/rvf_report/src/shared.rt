//! That the public types may be shared among threads.

use crate::delivery::Delivery;
use crate::status::Status;

fn is_shared<T: Send + Sync>(_value: &T) {}

/// Deliveries may be shared, and statuses.
pub(crate) fn are_shared(delivery: &Delivery, status: &Status) {
    is_shared(delivery);
    is_shared(status);
}
