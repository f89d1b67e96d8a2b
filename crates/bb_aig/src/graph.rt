ghost use Rattle.std.specs.Prelude.{◌≡◌, ◌*◌, ◌<◌, ◌≤◌, ◌^◌, ◌&&◌, length, IfOk, IfSome};
ghost use Rattle.bb_aig.specs.Graph.{IsLit, IsGraph};
ghost use Rattle.bb_aig.specs.Gates.{Meaning, Grows, IsMade, Both};

use crate::aig::Aig;
use crate::node::{AigNode, Lit};
use crate::table::{PLACES, first_place, later_place, put};
use fv_text::Memory;
use std::alloc::Global;
use std::marker::Model;

/// A graph to which gates are added: each pair of literals once, and none where a literal of the graph is the same
/// already.
#[derive(Debug, Drop)]
pub struct Gates {
    alloc: Global,
    aig: Aig,
    /// Numbers of nodes, and 0 where a place is free.
    guesses: Vec<u64>,
    /// How many places aren't free.
    taken: usize,
}

impl Model for Gates {
    ghost use Rattle.std.specs.Prelude.{List};
    ghost use Rattle.bb_aig.specs.declared.node.AigNode.{AigNode};

    ghost Value = { List AigNode };

    ghost view = { λ g. g.aig };
}

/// Which literal both come to, where no gate is needed: one of them is constant, or both are of one node.
fn folded(aig: &Aig, a: Lit, b: Lit) -> Option<Lit>
    requires left { IsLit aig.now a }
    requires right { IsLit aig.now b }
    ensures there { IfSome result (IsLit aig.now) }
    ensures both { IfSome result (Both aig.now a b) }
{
    let _ = aig.len();
    if a == 0 {
        return Some(a);
    }
    if a == 1 {
        return Some(b);
    }
    if b == 0 {
        return Some(b);
    }
    if b == 1 {
        return Some(a);
    }
    if a == b {
        return Some(a);
    }
    if a / 2 == b / 2 {
        return Some(0);
    }
    None
}

/// The literal of a node, where that node is the gate of both.
fn gate_at(aig: &Aig, index: u64, a: Lit, b: Lit) -> Option<Lit>
    ensures there { IfSome result (IsLit aig.now) }
    ensures both { IfSome result (Both aig.now a b) }
{
    if index >= aig.len() as u64 {
        return None;
    }
    let Some(node) = aig.node(index as usize) else {
        return None;
    };
    match node {
        AigNode::And(c, d) => {
            if c == a && d == b {
                return Some(2 * index);
            }
            None
        }
        _ => None,
    }
}

impl Gates {
    /// Gates over a graph; those that it has are not looked for.
    pub fn new(alloc: Global, aig: Aig) -> Gates
        ensures { result ≡ aig }
    {
        Gates {
            alloc,
            aig,
            guesses: Vec::new(alloc),
            taken: 0,
        }
    }

    /// The graph.
    pub fn graph(&self) -> &Aig
        ensures { result.now ≡ self.now }
    {
        &self.aig
    }

    /// The graph itself.
    pub fn into_graph(self) -> Aig
        ensures { result ≡ self }
    {
        let Gates {
            alloc: _,
            aig,
            guesses: _,
            taken: _,
        } = self;
        aig
    }

    /// The gate of both, where a guess is right. A gate stands in front of the first place that is free.
    fn found(&self, a: Lit, b: Lit) -> Option<Lit>
        ensures there { IfSome result (IsLit self.now) }
        ensures both { IfSome result (Both self.now a b) }
    {
        let places = self.guesses.len();
        if places == 0 {
            return None;
        }
        let first = first_place(a, b, places);
        for turn in 0..PLACES {
            let guess = self.guesses[later_place(first, turn, places)];
            if guess == 0 {
                return None;
            }
            if let Some(lit) = gate_at(&self.aig, guess, a, b) {
                return Some(lit);
            }
        }
        None
    }

    /// Makes the table twice as large where half of it is taken.
    fn make_room(&mut self) -> Result<(), Memory>
        ensures { self.new ≡ self.old }
    {
        let places = self.guesses.len();
        if self.taken < places / 2 || places >= 1 << 40 {
            return Ok(());
        }
        let mut table = vec![in self.alloc; 0u64; 2 * places + 64]?;
        let mut taken = 0usize;
        for (index, node) in self.aig.behind_false().iter().enumerate() {
            if let AigNode::And(a, b) = *node {
                if put(table.as_mut_slice(), a, b, index as u64 + 1) {
                    taken = taken.saturating_add(1);
                }
            }
        }
        self.guesses = table;
        self.taken = taken;
        Ok(())
    }

    /// The gate of both, looked for under this order of the two.
    fn shared(&mut self, a: Lit, b: Lit) -> Result<Lit, Memory>
        requires left { IsLit self.old a }
        requires right { IsLit self.old b }
        ensures grows { Grows self.old self.new }
        ensures made { IfOk result (λ l. (f h : Meaning) → IsMade self.old f a → IsMade self.old h b
            → IsMade self.new (λ x. f x && h x) l) }
    {
        if let Some(lit) = self.found(a, b) {
            return Ok(lit);
        }
        self.make_room()?;
        let lit = self.aig.and(a, b)?;
        if put(self.guesses.as_mut_slice(), a, b, lit / 2) {
            self.taken = self.taken.saturating_add(1);
        }
        Ok(lit)
    }

    /// Both. Of two literals that came before, or of one of them and a constant, no gate is added.
    pub fn and(&mut self, a: Lit, b: Lit) -> Result<Lit, Memory>
        requires left { IsLit self.old a }
        requires right { IsLit self.old b }
        ensures grows { Grows self.old self.new }
        ensures made { IfOk result (λ l. (f h : Meaning) → IsMade self.old f a → IsMade self.old h b
            → IsMade self.new (λ x. f x && h x) l) }
    {
        if let Some(lit) = folded(&self.aig, a, b) {
            return Ok(lit);
        }
        if b < a {
            let lit = self.shared(b, a)?;
            return Ok(lit);
        }
        self.shared(a, b)
    }
}
