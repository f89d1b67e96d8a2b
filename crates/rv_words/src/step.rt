use rv_table::Opts;
use wn_net::NodeId;

/// An instruction as it finds its sources: nodes of a net, its length in bytes, and what the core may choose.
#[derive(Debug, Clone, Copy, PartialEq, Eq)]
pub struct StepNodes {
    pub word: NodeId,
    pub length: u32,
    pub rs1_addr: NodeId,
    pub rs2_addr: NodeId,
    pub rd_addr: NodeId,
    pub s1: NodeId,
    pub s2: NodeId,
    pub pc: NodeId,
    pub mem_rdata: NodeId,
    pub opts: Opts,
}
