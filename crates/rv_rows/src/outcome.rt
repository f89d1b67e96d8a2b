use wn_net::NodeId;

/// What an instruction does: nodes of a net. An address of a register has five bits, a mask four, the trap one, and
/// the others 32.
#[derive(Debug, Clone, Copy, PartialEq, Eq)]
pub struct OutcomeNodes {
    pub rs1_addr: NodeId,
    pub rs2_addr: NodeId,
    pub rd_addr: NodeId,
    pub rd_wdata: NodeId,
    pub pc_wdata: NodeId,
    pub mem_addr: NodeId,
    pub rmask: NodeId,
    pub wmask: NodeId,
    pub wdata: NodeId,
    pub trap: NodeId,
}

/// A word, a mask and a bit that are 0.
#[derive(Debug, Clone, Copy, PartialEq, Eq)]
pub struct Zeros {
    pub word: NodeId,
    pub mask: NodeId,
    pub bit: NodeId,
}
