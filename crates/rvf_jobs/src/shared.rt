//! That the public types may be shared among threads.

use crate::gate::OpenGate;

fn is_shared<T: Send + Sync>(_value: &T) {}

pub(crate) fn gate_is_shared(gate: &OpenGate) {
    is_shared(gate);
}
