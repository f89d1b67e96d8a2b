//! Whether a node stands on a circle, by a search over all that it leads to.
ghost use Rattle.std.specs.Prelude.{◌≡◌, ◌↔◌, ◌<◌, ◌≤◌, ◌^◌, true, false, [], ◌∷◌, All, length, replicate, slice_set};
ghost use Rattle.std.specs.Prelude.{IsTrue, OnOk, IfOk};
ghost use Rattle.std.specs.Bool.{MatchBool};
ghost use Rattle.fv_graph.specs.Graph.{IsWithin};
ghost use Rattle.aiger_text.specs.Circles.{IsOnCircle, waiting_with, Waits, Follows};

use fv_text::{List, Memory};
use std::alloc::Global;

/// The nodes that were found, and those among them whose targets weren't looked at.
#[derive(Drop)]
pub(crate) struct Search {
    pub(crate) found: Vec<bool>,
    pub(crate) waiting: Vec<u32>,
}

impl Search {
    /// The goal was found, and nothing else.
    fn begin(alloc: Global, count: usize, goal: u32) -> Result<Search, Memory>
        requires { goal < count }
        ensures found { IfOk result (λ s. s.found.items ≡ slice_set (replicate count false) goal true) }
        ensures waiting { IfOk result (λ s. s.waiting.items ≡ goal ∷ []) }
    {
        let mut search = Search {
            found: vec![in alloc; false; count]?,
            waiting: Vec::new(alloc),
        };
        search.waiting.push(goal)?;
        search.found.as_mut_slice()[goal as usize] = true;
        Ok(search)
    }

    /// Finds a node, if it wasn't found before.
    fn find(&mut self, node: u32) -> Result<(), Memory>
        requires { node < length self.old.found.items }
        ensures found { OnOk result (self.new.found.items ≡ slice_set self.old.found.items node true) }
        ensures waiting { OnOk result (self.new.waiting.items
            ≡ waiting_with self.old.found.items self.old.waiting.items node) }
    {
        if !self.found.as_slice()[node as usize] {
            self.waiting.push(node)?;
            self.found.as_mut_slice()[node as usize] = true;
        }
        Ok(())
    }

    /// Finds targets. Whether one of them is the goal.
    fn follow(&mut self, row: &[u32], goal: u32) -> Result<bool, Memory>
        requires { All (λ j. j < length self.old.found.items) row.now }
        ensures { IfOk result (λ b. MatchBool b (Waits row.now goal)
            (Follows row.now goal self.old.found.items self.old.waiting.items self.new.found.items
            self.new.waiting.items)) }
    {
        for target in row {
            if *target == goal {
                return Ok(true);
            }
            self.find(*target)?;
        }
        Ok(false)
    }
}

/// Whether the node stands on a circle.
pub(crate) fn is_on_circle(alloc: Global, graph: &[List<u32>], node: u32) -> Result<bool, Memory>
    requires within { IsWithin graph.now }
    requires there { node < length graph.now }
    ensures { IfOk result (λ b. IsTrue b ↔ IsOnCircle graph.now node) }
{
    let mut search = Search::begin(alloc, graph.len(), node)?;
    while let Some(next) = search.waiting.pop() {
        if search.follow(graph[next as usize].as_slice(), node)? {
            return Ok(true);
        }
    }
    Ok(false)
}
