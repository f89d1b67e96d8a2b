//! How much of a design was walked.
ghost use Rattle.std.specs.Prelude.{◌≡◌, ◌≤◌, ◌+◌, ◌-◌, ℕ};
ghost use Rattle.vl_mean.specs.ConstantFaults.{capped};
ghost use Rattle.vl_elab_spec.specs.Refused as refused;
ghost use Rattle.vl_elab_spec.specs.Walked.{AreTotals};

/// Nodes of trees, each time that the walk goes through them, and declared names; each number up to `2^64 - 1`.
#[derive(Clone, Copy)]
pub struct Totals {
    nodes: u64,
    names: u64,
}

fn plus(first: u64, second: u64) -> u64
    ensures { result ≡ capped (first + second) }
{
    first.saturating_add(second)
}

impl Totals {
    /// Nothing.
    pub fn new() -> Totals
        ensures { AreTotals result (record { nodes = 0; names = 0 }) }
    {
        Totals { nodes: 0, names: 0 }
    }

    /// With so many nodes and names more.
    pub fn with(self, nodes: u64, names: u64) -> Totals
        ensures { (t : refused.Totals) (m n : ℕ) → AreTotals self t → nodes ≡ capped m → names ≡ capped n
            → AreTotals result (record { nodes = t.nodes + m; names = t.names + n }) }
    {
        Totals {
            nodes: plus(self.nodes, nodes),
            names: plus(self.names, names),
        }
    }

    /// Above 4,000,000 nodes or 200,000 names.
    pub fn is_too_large(self) -> bool
        ensures { (t : refused.Totals) → AreTotals self t → result ≡ refused.is_too_large t }
    {
        self.nodes > 4_000_000 || self.names > 200_000
    }

    /// How many nodes more it may have.
    pub fn nodes_left(self) -> u64
        ensures { (t : refused.Totals) → AreTotals self t → result ≡ 4000000 - t.nodes }
    {
        4_000_000u64.saturating_sub(self.nodes)
    }

    /// How many names more it may have.
    pub fn names_left(self) -> u64
        ensures few { result ≤ 200000 }
        ensures left { (t : refused.Totals) → AreTotals self t → result ≡ 200000 - t.names }
    {
        200_000u64.saturating_sub(self.names)
    }
}
