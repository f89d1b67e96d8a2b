//! That macros and faults may be shared among threads.

use crate::fault::PrepFault;
use crate::macros::Macros;

fn is_shared<T: Send + Sync>(_value: &T) {}

pub(crate) fn macros_are_shared(macros: &Macros, fault: &PrepFault) {
    is_shared(macros);
    is_shared(fault);
}
