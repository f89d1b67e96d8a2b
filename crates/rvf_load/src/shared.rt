//! That what is loaded, and why nothing is, may be shared among threads.

use crate::asked::Probes;
use crate::fault::LoadFault;
use crate::loaded::Loaded;

fn is_shared<T: Send + Sync>(_value: &T) {}

pub(crate) fn answers_are_shared(probes: &Probes, fault: &LoadFault, loaded: &Loaded) {
    is_shared(probes);
    is_shared(fault);
    is_shared(loaded);
}
