//! That faults may be shared among threads.

use crate::fault::LexFault;

fn is_shared<T: Send + Sync>(_value: &T) {}

pub(crate) fn faults_are_shared(fault: &LexFault) {
    is_shared(fault);
}
