//! Which cut a gate is told by: a guess, so no clause of a contract speaks of it.
ghost use Rattle.std.specs.Prelude.{◌≤◌, length};

use crate::cut::{Cut, NONE, are_same, joined, joined_leaves};
use crate::leaves::Leaves;
use crate::primes::Covers;
use bb_aig::{Aig, AigNode, Lit};
use fv_text::{List, Memory};
use std::alloc::Global;

/// So many cuts of a gate are kept, beside itself. Twice as many make one clause in a hundred less, in twice the time.
const MOST_CUTS: usize = 3;

/// A clause costs so much, and a variable half of that.
const CLAUSE: u32 = 64;

/// So many gates of a cone are looked at.
const MOST_GATES: usize = 256;

/// A gate and the cut that it is told by.
#[derive(Debug, Clone, Copy, PartialEq, Eq)]
pub(crate) struct Cell {
    pub node: u64,
    pub leaves: Leaves,
}

/// The cuts of the nodes from the inputs up.
#[derive(Debug, Drop)]
struct Chooser {
    cuts: Vec<Cut>,
    /// Where the cuts of each node begin, and behind them where the next ones will.
    starts: Vec<usize>,
    /// What the best cut of a node costs each gate that reads the node.
    flows: Vec<u32>,
    /// How many gates, roots and watched bits read a node.
    reads: Vec<u32>,
    /// The cuts of one gate.
    found: Vec<Cut>,
}

fn add_read(reads: &mut [u32], lit: Lit) {
    if let Some(slot) = reads.get_mut((lit / 2) as usize) {
        *slot = slot.saturating_add(1);
    }
}

/// How many gates, roots and watched bits read each node.
fn reads_of(alloc: Global, aig: &Aig, root: Lit, watch: &[List<Lit>]) -> Result<Vec<u32>, Memory> {
    let mut reads = vec![in alloc; 0u32; aig.len()]?;
    for node in aig.behind_false() {
        if let AigNode::And(a, b) = *node {
            add_read(reads.as_mut_slice(), a);
            add_read(reads.as_mut_slice(), b);
        }
    }
    add_read(reads.as_mut_slice(), root);
    for word in watch {
        for lit in word.as_slice() {
            add_read(reads.as_mut_slice(), *lit);
        }
    }
    Ok(reads)
}

/// In front of how many cuts one of this cost stands.
fn place_of(found: &[Cut], cost: u32) -> usize
    ensures { result ≤ length found.now }
{
    for (index, cut) in found.iter().enumerate() {
        if cost < cut.cost {
            return index;
        }
    }
    found.len()
}

/// Whether a cut has these leaves.
fn has_leaves(found: &[Cut], leaves: &[u32; 4]) -> bool {
    for cut in found {
        if are_same(&cut.leaves, leaves) {
            return true;
        }
    }
    false
}

impl Chooser {
    /// The number of a node's cuts, and the first of them.
    fn span(&self, node: u64) -> (usize, usize) {
        let start = self.starts.get(node as usize).copied().unwrap_or(0);
        let next = (node as usize).saturating_add(1);
        let end = self.starts.get(next).copied().unwrap_or(start);
        (start, end)
    }

    /// What the clauses of a cut cost, and its leaves.
    fn cost(&self, covers: &mut Covers, cut: &Cut) -> Result<u32, Memory> {
        let clauses = covers.clauses(cut.table)?;
        let mut cost = clauses.saturating_mul(CLAUSE).saturating_add(CLAUSE / 2);
        for leaf in &cut.leaves {
            let flow = self.flows.get(*leaf as usize).copied().unwrap_or(0);
            cost = cost.saturating_add(flow);
        }
        Ok(cost)
    }

    /// Keeps a cut among the best of a gate.
    fn keep(&mut self, covers: &mut Covers, mut cut: Cut) -> Result<(), Memory> {
        cut.cost = self.cost(covers, &cut)?;
        let place = place_of(self.found.as_slice(), cut.cost);
        if place < MOST_CUTS {
            self.found.insert(place, cut)?;
            self.found.truncate(MOST_CUTS);
        }
        Ok(())
    }

    /// Finds the best cuts of a gate that have this cut of what it reads first.
    fn find_over(&mut self, covers: &mut Covers, left: &Cut, a: Lit, b: Lit) -> Result<(), Memory> {
        let (start, end) = self.span(b / 2);
        for place in start..end {
            let Some(right) = self.cuts.get(place).copied() else {
                return Ok(());
            };
            let Some(leaves) = joined_leaves(left, &right) else {
                continue;
            };
            if has_leaves(self.found.as_slice(), &leaves) {
                continue;
            }
            if let Some(cut) = joined(left, &right, a % 2 == 1, b % 2 == 1, &leaves) {
                self.keep(covers, cut)?;
            }
        }
        Ok(())
    }

    /// Finds the best cuts of a gate.
    fn find(&mut self, covers: &mut Covers, a: Lit, b: Lit) -> Result<(), Memory> {
        self.found.clear();
        let (start, end) = self.span(a / 2);
        for place in start..end {
            let Some(left) = self.cuts.get(place).copied() else {
                return Ok(());
            };
            self.find_over(covers, &left, a, b)?;
        }
        Ok(())
    }

    /// Adds the cuts of a node, the best first and the node itself last.
    fn add(&mut self, covers: &mut Covers, node: &AigNode, number: u32) -> Result<(), Memory> {
        let mut flow = 0;
        if let AigNode::And(a, b) = *node {
            self.find(covers, a, b)?;
            if let Some(best) = self.found.get(0) {
                let reads = self.reads.get(number as usize).copied().unwrap_or(1);
                flow = best.cost / reads.max(1);
            }
            self.cuts.extend_from_slice(self.found.as_slice())?;
        }
        self.cuts.push(Cut::own(number))?;
        self.starts.push(self.cuts.len())?;
        self.flows.push(flow)?;
        Ok(())
    }

    /// The best cut of a gate. Where none was found it is what the gate reads.
    fn best(&self, node: u64, a: Lit, b: Lit) -> Leaves {
        let (start, end) = self.span(node);
        if start.saturating_add(1) < end {
            if let Some(cut) = self.cuts.get(start) {
                return leaves_of(cut);
            }
        }
        Leaves {
            first: a / 2,
            second: b / 2,
            third: 0,
            fourth: 0,
        }
    }
}

fn leaf_of(leaf: u32) -> u64 {
    if leaf == NONE { 0 } else { u64::from(leaf) }
}

fn leaves_of(cut: &Cut) -> Leaves {
    Leaves {
        first: leaf_of(cut.leaves[0]),
        second: leaf_of(cut.leaves[1]),
        third: leaf_of(cut.leaves[2]),
        fourth: leaf_of(cut.leaves[3]),
    }
}

fn need(needed: &mut [bool], node: u64) {
    if let Some(slot) = needed.get_mut(node as usize) {
        *slot = true;
    }
}

fn need_leaves(needed: &mut [bool], leaves: &Leaves) {
    need(needed, leaves.first);
    need(needed, leaves.second);
    need(needed, leaves.third);
    need(needed, leaves.fourth);
}

/// The cuts of all nodes.
fn choose(
    alloc: Global,
    aig: &Aig,
    covers: &mut Covers,
    reads: Vec<u32>,
) -> Result<Chooser, Memory> {
    let mut chooser = Chooser {
        cuts: Vec::new(alloc),
        starts: vec![in alloc; 0usize; 1]?,
        flows: Vec::new(alloc),
        reads,
        found: Vec::new(alloc),
    };
    chooser.add(covers, &AigNode::False, 0)?;
    let mut number = 0u32;
    for node in aig.behind_false() {
        number = number.saturating_add(1);
        chooser.add(covers, node, number)?;
    }
    Ok(chooser)
}

/// The gates that need a variable, the lowest first, each with its best cut: the root, the watched bits, and the leaves
/// of these cuts.
pub(crate) fn cells_of(
    alloc: Global,
    aig: &Aig,
    covers: &mut Covers,
    root: Lit,
    watch: &[List<Lit>],
) -> Result<Vec<Cell>, Memory> {
    let reads = reads_of(alloc, aig, root, watch)?;
    let chooser = choose(alloc, aig, covers, reads)?;
    let mut needed = vec![in alloc; false; aig.len()]?;
    need(needed.as_mut_slice(), root / 2);
    for word in watch {
        for lit in word.as_slice() {
            need(needed.as_mut_slice(), *lit / 2);
        }
    }
    let mut cells = Vec::new(alloc);
    let nodes = aig.behind_false();
    for turn in 0..nodes.len() {
        let place = nodes.len() - 1 - turn;
        let node = place as u64 + 1;
        if let (AigNode::And(a, b), Some(true)) = (nodes[place], needed.get(place + 1).copied()) {
            let leaves = chooser.best(node, a, b);
            need_leaves(needed.as_mut_slice(), &leaves);
            cells.push(Cell { node, leaves })?;
        }
    }
    cells.reverse();
    Ok(cells)
}

fn is_leaf(leaves: &Leaves, node: u64) -> bool {
    node == leaves.first || node == leaves.second || node == leaves.third || node == leaves.fourth
}

/// Adds the node of a literal to a cone, where it is new and no leaf.
fn add_gate(cone: &mut Vec<u64>, leaves: &Leaves, lit: Lit) -> Result<(), Memory> {
    let node = lit / 2;
    if node != 0 && !is_leaf(leaves, node) && !cone.contains(&node) {
        cone.push(node)?;
    }
    Ok(())
}

/// The gates between the leaves of a cell and its node, the lowest first.
pub(crate) fn cone_of(aig: &Aig, cell: &Cell, cone: &mut Vec<u64>) -> Result<(), Memory> {
    cone.clear();
    cone.push(cell.node)?;
    for place in 0..MOST_GATES {
        let Some(node) = cone.get(place).copied() else {
            break;
        };
        if let Some(AigNode::And(a, b)) = aig.node(node as usize) {
            add_gate(cone, &cell.leaves, a)?;
            add_gate(cone, &cell.leaves, b)?;
        }
    }
    cone.sort()?;
    Ok(())
}
