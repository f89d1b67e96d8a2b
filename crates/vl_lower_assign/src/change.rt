use wn_net::NodeId;

/// A cell, and the node that stood in it.
#[derive(Debug, Clone, Copy, PartialEq, Eq)]
pub struct Change {
    pub cell: usize,
    pub node: NodeId,
}
