//! That the public types may be shared among threads.

use crate::lrat_fault::LratFault;
use crate::reading::Reading;
use crate::step::{Refuted, Step, StepFault};
use crate::store::Store;

fn is_shared<T: Send + Sync>(_value: &T) {}

/// Steps, answers, faults and stores may be shared.
pub(crate) fn are_shared(
    step: &Step,
    refuted: &Refuted,
    reading: &Reading,
    fault: &StepFault,
    read: &LratFault,
    store: &Store,
) {
    is_shared(step);
    is_shared(refuted);
    is_shared(reading);
    is_shared(fault);
    is_shared(read);
    is_shared(store);
}
