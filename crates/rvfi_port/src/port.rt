use fv_text::List;
use wn_net::NodeId;

/// What is to be bound beside the fields of the channels.
#[derive(Debug, Clone, Copy, PartialEq, Eq)]
pub struct Wants {
    /// The probe of instruction memory.
    pub imem: bool,
    /// The probe of data memory.
    pub dmem: bool,
    /// Memory is reached by whole aligned words.
    pub aligned: bool,
}

/// The nodes that show what retires in a channel.
#[derive(Debug, Clone, Copy, PartialEq, Eq)]
pub struct Channel {
    pub valid: NodeId,
    pub order: NodeId,
    pub insn: NodeId,
    pub trap: NodeId,
    pub halt: NodeId,
    pub intr: NodeId,
    pub rs1_addr: NodeId,
    pub rs2_addr: NodeId,
    pub rs1_rdata: NodeId,
    pub rs2_rdata: NodeId,
    pub rd_addr: NodeId,
    pub rd_wdata: NodeId,
    pub pc_rdata: NodeId,
    pub pc_wdata: NodeId,
    pub mem_addr: NodeId,
    pub mem_rmask: NodeId,
    pub mem_wmask: NodeId,
    pub mem_rdata: NodeId,
    pub mem_wdata: NodeId,
}

/// The nodes of a design that its checks are about.
#[derive(Debug, Drop)]
pub struct Port {
    /// Channel 0 first.
    pub channels: List<Channel>,
    /// The address and the half word of the probe of instruction memory.
    pub imem: Option<(NodeId, NodeId)>,
    /// The address of the probe of data memory.
    pub dmem: Option<NodeId>,
}
