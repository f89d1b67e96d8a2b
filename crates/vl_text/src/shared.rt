//! That faults may be shared among threads.

use crate::fault::TextFault;

fn is_shared<T: Send + Sync>(_value: &T) {}

pub(crate) fn faults_are_shared(fault: &TextFault) {
    is_shared(fault);
}
