use fv_text::List;
use wn_chain::Chain;
use wn_net::NodeId;

/// What stands for the words of a memory.
#[derive(Debug, Drop)]
pub enum MemoryNodes {
    /// A node for each word.
    Words(List<NodeId>),
    /// The words that it began with, and the writes since.
    Writes(Chain),
}

/// What stands for the state at first: a node for each register, and for each word of each memory.
#[derive(Debug, Drop)]
pub(crate) struct StartNodes {
    pub(crate) regs: List<NodeId>,
    pub(crate) mems: List<List<NodeId>>,
}

/// What stands for the numbers in the registers and in the words of the memories.
#[derive(Debug, Drop)]
pub struct StateNodes {
    pub regs: List<NodeId>,
    pub mems: List<MemoryNodes>,
}
