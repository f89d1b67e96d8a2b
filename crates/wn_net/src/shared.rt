//! That the public types may be shared among threads.

use crate::names::{Names, NetName, Spot};
use crate::net::Net;
use crate::node::Node;
use crate::parts::{Input, Mem, MemWrite, Reg, State};

fn is_shared<T: Send + Sync>(_value: &T) {}

/// Nets may be shared, and what they are of.
pub(crate) fn nets_are_shared(net: &Net, node: &Node, state: &State) {
    is_shared(net);
    is_shared(node);
    is_shared(state);
}

pub(crate) fn parts_are_shared(reg: &Reg, mem: &Mem, write: &MemWrite, input: &Input) {
    is_shared(reg);
    is_shared(mem);
    is_shared(write);
    is_shared(input);
}

/// Names may be shared.
pub(crate) fn names_are_shared(names: &Names, name: &NetName, spot: &Spot) {
    is_shared(names);
    is_shared(name);
    is_shared(spot);
}
