//! The values of nodes.

use fv_text::{List, Memory};
use std::alloc::Global;
use wn_net::{Net, State};

/// The values of all nodes of a net without inputs, registers and memories.
pub(crate) fn values_of(alloc: Global, net: &Net) -> Result<Vec<u128>, Memory> {
    let state = State {
        regs: List::new(alloc),
        mems: List::new(alloc),
    };
    let mut values = Vec::new(alloc);
    values.resize(net.nodes().len(), 0)?;
    if net.admits(&[], &state) {
        net.eval(&[], &state, values.as_mut_slice());
    }
    Ok(values)
}
