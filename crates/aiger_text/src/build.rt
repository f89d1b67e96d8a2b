//! The graph of gates in an order in which each stands behind those that it uses.
ghost use Rattle.std.specs.Prelude.{◌≡◌, ◌<◌, ◌≤◌, ◌+◌, ◌*◌, ◌/◌, ◌%◌, ◌^◌, ℕ, length, slice_index, slice_set, IfOk, OnOk};
ghost use Rattle.fv_graph.specs.Graph.{IsOrder};
ghost use Rattle.bb_aig.specs.declared.node.AigNode.TheVariants as node;
ghost use Rattle.bb_aig.specs.Graph.{inputs_of, Adds, IsLit};
ghost use Rattle.aiger_text.specs.Wires.{successors, AreNodes, IsBuilt};
ghost use Rattle.aiger_text.specs.Built.{Begins, moved};

use crate::wires::{Wire, Wired};
use bb_aig::{Aig, Lit};
use fv_text::Memory;
use std::alloc::Global;

/// A graph, and the literal that each node of the text has in it.
#[derive(Drop)]
struct Draft {
    aig: Aig,
    lits: Vec<Lit>,
}

impl Draft {
    /// Node 0 and the inputs. There are so many nodes in the text.
    fn new(alloc: Global, inputs: usize, nodes: usize) -> Result<Draft, Memory>
        requires { inputs < nodes }
        ensures { IfOk result (λ b. Begins inputs nodes b.aig b.lits.items) }
    {
        let mut draft = Draft {
            aig: Aig::new(alloc),
            lits: vec![in alloc; 0u64; nodes]?,
        };
        for input in 0..inputs {
            draft.add_input(input + 1)?;
        }
        Ok(draft)
    }

    /// Adds the input that is the node of the text at this place.
    fn add_input(&mut self, place: usize) -> Result<(), Memory>
        requires { place < length self.old.lits.items }
        ensures lits { OnOk result (self.new.lits.items
            ≡ slice_set self.old.lits.items place (2 * length self.old.aig)) }
        ensures input { OnOk result (Adds self.old.aig self.new.aig (node.Input (inputs_of self.old.aig))
            (2 * length self.old.aig)) }
    {
        let lit = self.aig.input()?;
        self.lits.as_mut_slice()[place] = lit;
        Ok(())
    }

    /// The literal in the graph of one of the text.
    fn moved(&self, lit: Lit) -> Lit
        requires there { lit / 2 < length self.now.lits.items }
        requires few { slice_index self.now.lits.items (lit / 2) < 2 ^ 63 }
        ensures { result ≡ moved self.now.lits.items lit }
    {
        self.lits.as_slice()[(lit / 2) as usize] + lit % 2
    }

    /// Adds the gate that is the node of the text at this place.
    fn add(&mut self, place: usize, wire: Wire) -> Result<(), Memory>
        requires there { place < length self.old.lits.items }
        requires left_there { wire.left / 2 < length self.old.lits.items }
        requires right_there { wire.right / 2 < length self.old.lits.items }
        requires left { IsLit self.old.aig (moved self.old.lits.items wire.left) }
        requires right { IsLit self.old.aig (moved self.old.lits.items wire.right) }
        requires few { length self.old.aig ≤ 2 ^ 62 }
        ensures lits { OnOk result (self.new.lits.items
            ≡ slice_set self.old.lits.items place (2 * length self.old.aig)) }
        ensures gate { OnOk result (Adds self.old.aig self.new.aig
            (node.And (moved self.old.lits.items wire.left) (moved self.old.lits.items wire.right))
            (2 * length self.old.aig)) }
    {
        let left = self.moved(wire.left);
        let right = self.moved(wire.right);
        let lit = self.aig.and(left, right)?;
        self.lits.as_mut_slice()[place] = lit;
        Ok(())
    }
}

impl Wired {
    /// The graph and its root. Nodes 1 to I are the inputs.
    pub(crate) fn build(&self, alloc: Global, order: &[u32]) -> Result<(Aig, Lit), Memory>
        requires nodes { AreNodes self.now.inputs self.now.root self.now.wires.items }
        requires order { IsOrder (successors self.now.inputs self.now.wires.items) order.now }
        ensures { IfOk result (λ x. IsBuilt self.now.inputs self.now.root self.now.wires.items x.0 x.1) }
    {
        let wires = self.wires.as_slice();
        let first = self.inputs + 1;
        let mut draft = Draft::new(alloc, self.inputs, first + wires.len())?;
        for gate in order {
            draft.add(first + *gate as usize, wires[*gate as usize])?;
        }
        let root = draft.moved(self.root);
        Ok((draft.aig, root))
    }
}
