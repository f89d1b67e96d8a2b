ghost use Rattle.std.specs.Prelude.{
  ◌≡◌,
  ◌+◌,
  ◌<◌,
  ◌≤◌,
  ◌^◌,
  [],
  ◌++◌,
  ◌∷◌,
  length,
  slice_get,
  slice_set,
};
ghost use Rattle.std.specs.Prelude.{slice_index, IfOk, OnOk, OnErr, IsTrue, ◌↔◌};
ghost use Rattle.wn_net.specs.Net.{IsNode, IsNet, width_at};
ghost use Rattle.wn_net.specs.Changes.{cut_to};

use crate::node::{Node, NodeId};
use crate::parts::{Input, Mem, Reg};
use std::alloc::Global;
use std::marker::Model;

/// A word-level net.
///
/// What a node reads has a lower number, and each width is from 1 to 128 bits.
#[derive(Debug, Drop)]
pub struct Net {
    pub(crate) alloc: Global,
    pub(crate) nodes: Vec<Node>,
    /// The width of each node.
    pub(crate) widths: Vec<u32>,
    pub(crate) regs: Vec<Reg>,
    pub(crate) mems: Vec<Mem>,
    pub(crate) inputs: Vec<Input>,
    pub(crate) assumes: Vec<NodeId>,
}

impl Model for Net {
    ghost use Rattle.wn_net.specs.Net.{Netlist, IsKept};

    ghost Value = { Netlist };

    ghost view = { λ n. record {
      nodes = n.nodes.items;
      regs = n.regs.items;
      mems = n.mems.items;
      inputs = n.inputs.items;
      assumes = n.assumes.items;
    } };

    ghost invariant = { λ n. IsKept (record {
      nodes = n.nodes.items;
      regs = n.regs.items;
      mems = n.mems.items;
      inputs = n.inputs.items;
      assumes = n.assumes.items;
    }) n.widths.items };
}

impl Net {
    /// A net with nothing in it.
    pub fn new(alloc: Global) -> Net
        ensures nodes { result.nodes ≡ [] }
        ensures regs { result.regs ≡ [] }
        ensures mems { result.mems ≡ [] }
        ensures inputs { result.inputs ≡ [] }
        ensures assumes { result.assumes ≡ [] }
    {
        Net {
            alloc,
            nodes: Vec::new(alloc),
            widths: Vec::new(alloc),
            regs: Vec::new(alloc),
            mems: Vec::new(alloc),
            inputs: Vec::new(alloc),
            assumes: Vec::new(alloc),
        }
    }

    pub fn nodes(&self) -> &[Node]
        ensures value { result.now ≡ self.now.nodes }
        ensures whole { IsNet self.now }
    {
        self.nodes.as_slice()
    }

    pub fn regs(&self) -> &[Reg]
        ensures value { result.now ≡ self.now.regs }
        ensures whole { IsNet self.now }
    {
        self.regs.as_slice()
    }

    pub fn mems(&self) -> &[Mem]
        ensures value { result.now ≡ self.now.mems }
        ensures whole { IsNet self.now }
    {
        self.mems.as_slice()
    }

    pub fn inputs(&self) -> &[Input]
        ensures value { result.now ≡ self.now.inputs }
        ensures whole { IsNet self.now }
    {
        self.inputs.as_slice()
    }

    /// The nodes that are to be other than 0 in each cycle.
    pub fn assumes(&self) -> &[NodeId]
        ensures value { result.now ≡ self.now.assumes }
        ensures whole { IsNet self.now }
    {
        self.assumes.as_slice()
    }

    /// Whether there is a node of this number.
    pub fn has(&self, id: NodeId) -> bool
        ensures { IsTrue result ↔ IsNode self.now id }
    {
        id < self.nodes.len() as u64
    }

    /// The width of a node in bits, from 1 to 128.
    pub fn width(&self, id: NodeId) -> u32
        requires { IsNode self.now id }
        ensures value { result ≡ width_at self.now id }
        ensures some { 1 ≤ result }
        ensures few { result ≤ 128 }
        ensures whole { IsNet self.now }
    {
        self.widths[id as usize]
    }

    /// Leaves the first so many nodes and registers, and all else as it is.
    pub fn cut(&mut self, nodes: usize, regs: usize)
        requires nodes { nodes ≤ length self.old.nodes }
        requires regs { regs ≤ length self.old.regs }
        // nothing that is left names a node or a register that goes
        requires whole { IsNet (cut_to nodes regs self.old) }
        ensures { self.new ≡ cut_to nodes regs self.old }
    {
        self.nodes.truncate(nodes);
        self.widths.truncate(nodes);
        self.regs.truncate(regs);
    }
}
