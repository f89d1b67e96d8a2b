use wn_net::NodeId;

/// What stands for nodes of the last cycle.
#[derive(Debug, Drop)]
pub struct Walked {
    /// All are other than 0 where the assumptions are met in each cycle and the bad node is other than 0 in the last.
    pub roots: Vec<NodeId>,
    /// The watched nodes.
    pub watch: Vec<NodeId>,
}
