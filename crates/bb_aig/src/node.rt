ghost use Rattle.std.specs.Prelude.{◌≡◌, ℕ, Bool, not, List};
ghost use Rattle.bb_aig.specs.Graph as spec;
ghost use Rattle.bb_aig.specs.Graph.{IsLit, lit_at};
ghost use Rattle.bb_aig.specs.declared.node.AigNode.{AigNode};

/// A literal: twice a node's number, and 1 more where it is negated. So 0 is false and 1 is true.
pub type Lit = u64;

/// A node of a graph.
#[derive(Debug, Clone, Copy, PartialEq, Eq)]
pub enum AigNode {
    /// Node 0, and no other.
    False,
    /// An input, by its number: the first is 0.
    Input(u64),
    /// Both literals, of nodes with lower numbers.
    And(Lit, Lit),
}

/// The other literal of the node.
#[tactic(auto, using(crate::proofs::Others::others))]
pub fn complement(lit: Lit) -> Lit
    ensures value { result ≡ spec.complement lit }
    ensures there { (graph : List AigNode) → IsLit graph lit → IsLit graph result }
    ensures turned { (graph : List AigNode) (x : ℕ → Bool) → lit_at graph x result ≡ not (lit_at graph x lit) }
{
    if lit % 2 == 1 { lit - 1 } else { lit + 1 }
}
