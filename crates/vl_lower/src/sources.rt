ghost use Rattle.vl_lower.specs.Added.{IsNone};

use fv_text::List;
use std::alloc::Global;
use wn_net::{Net, NodeId, Spot};

/// The inputs, registers and memories of a design, and its cells.
#[derive(Drop)]
pub struct Sources {
    pub net: Net,
    /// Of which bits of names the inputs are.
    pub inputs: List<Spot>,
    /// Of which bits of names the registers are.
    pub regs: List<Spot>,
    /// Of which cell each register is.
    pub register_cells: List<u32>,
    /// The place of each memory's name.
    pub mems: List<u32>,
    /// The first cell of each memory.
    pub memory_cells: List<u32>,
    /// A node for each cell.
    pub cells: List<NodeId>,
}

impl Sources {
    /// None.
    pub(crate) fn new(alloc: Global) -> Sources
        ensures { IsNone result }
    {
        Sources {
            net: Net::new(alloc),
            inputs: List::new(alloc),
            regs: List::new(alloc),
            register_cells: List::new(alloc),
            mems: List::new(alloc),
            memory_cells: List::new(alloc),
            cells: List::new(alloc),
        }
    }
}
