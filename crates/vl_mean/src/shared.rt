//! That the public types may be shared among threads.

use crate::const_fault::ConstFault;
use crate::const_number::Const;
use crate::driver::Start;
use crate::env::Env;
use crate::params::Params;

fn is_shared<T: Send + Sync>(_value: &T) {}

pub(crate) fn maps_are_shared(env: &Env, params: &Params, constant: &Const, fault: &ConstFault) {
    is_shared(env);
    is_shared(params);
    is_shared(constant);
    is_shared(fault);
}

pub(crate) fn starts_are_shared(start: &Start) {
    is_shared(start);
}
