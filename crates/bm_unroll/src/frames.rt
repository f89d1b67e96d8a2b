use fv_text::List;
use wn_net::{Node, NodeId};

/// What may be chosen in a run.
#[derive(Debug, Clone, Copy, PartialEq, Eq)]
pub enum Source {
    /// An input, in a cycle.
    Each(u32, u32),
    /// An input, in all cycles.
    Once(u32),
    /// A register in the first cycle.
    RegStart(u32),
    /// A word of a memory in the first cycle.
    WordStart(u32, u32),
}

/// The cycles of a net from 0 up to one, as nodes over what may be chosen.
#[derive(Debug, Drop)]
pub struct Frames {
    /// `Input(i)` is source `i`; there is no `Reg` and no `Read`.
    pub nodes: List<Node>,
    pub sources: List<Source>,
    /// The width of each source.
    pub widths: List<u32>,
    /// The assumptions in each cycle, and the bad node in the last.
    pub roots: List<NodeId>,
    /// The watched nodes in the last cycle.
    pub watch: List<NodeId>,
}
