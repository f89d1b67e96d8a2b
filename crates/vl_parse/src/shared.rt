//! That the public types may be shared among threads.

use crate::fault::ParseFault;

fn is_shared<T: Send + Sync>(_value: &T) {}

pub(crate) fn faults_are_shared(fault: &ParseFault) {
    is_shared(fault);
}
