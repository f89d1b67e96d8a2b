//! That the public types may be shared among threads.

use crate::aig::Aig;
use crate::node::AigNode;

fn is_shared<T: Send + Sync>(_value: &T) {}

/// Graphs may be shared, and their nodes.
pub(crate) fn graphs_are_shared(aig: &Aig, node: &AigNode) {
    is_shared(aig);
    is_shared(node);
}
