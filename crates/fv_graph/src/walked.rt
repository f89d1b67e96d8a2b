ghost use Rattle.std.specs.Prelude.{◌≡◌, [], ◌<◌, ◌≤◌, ◌^◌, ℕ, List, length, slice_get};
ghost use Rattle.std.specs.Prelude.{replicate, IfOk, Some};
ghost use Rattle.fv_graph.specs.Graph.{IsWithin};
ghost use Rattle.fv_graph.specs.Walking.{Came, Walks};
ghost use Rattle.fv_graph.specs.Walked.{ComesOf};
ghost use Rattle.fv_graph.specs.declared.state.Progress.TheVariants as p;

use crate::state::{Progress, State};
use fv_text::{List, Memory};
use std::alloc::Global;

/// What a walk comes to.
#[derive(Debug, Drop)]
pub enum Walked {
    /// Each node stands behind those that it leads to.
    Order(List<u32>),
    /// Each leads to the next one, and the last one to the first; no node stands twice.
    Circle(List<u32>),
}

impl State {
    /// With so many nodes, all of them new.
    fn begin(alloc: Global, count: usize) -> Result<State, Memory>
        ensures { IfOk result (λ state. (state.progress.items ≡ replicate count p.New) × (state.path.items ≡ [])
            × (state.done.items ≡ [])) }
    {
        let progress = vec![in alloc; Progress::New; count]?;
        Ok(State {
            progress,
            path: Vec::new(alloc),
            done: Vec::new(alloc),
        })
    }

    /// Puts the node, and all that it leads to, behind those that are done, where it isn't there. Some node of the path
    /// where it is closed from there on.
    fn visit(&mut self, graph: &[List<u32>], node: u32) -> Result<Option<u32>, Memory>
        requires walks { Walks graph.now self.old.progress.items self.old.path.items self.old.done.items }
        requires empty { self.old.path.items ≡ [] }
        requires known { node < length graph.now }
        requires within { IsWithin graph.now }
        ensures { IfOk result (λ o. Came graph.now self.old.progress.items node self.new.progress.items
            self.new.path.items self.new.done.items o) }
    {
        match self.progress.as_slice()[node as usize] {
            Progress::New => Ok(self.from(graph, node)?),
            Progress::Open => Ok(None),
            Progress::Done => Ok(None),
        }
    }
}

/// An order of all nodes, or a circle among them; the graph gives for each node those that it leads to, by their
/// numbers. Time and memory are linear in the nodes and their targets.
pub fn walk(alloc: Global, graph: &[List<u32>]) -> Result<Walked, Memory>
    requires within { IsWithin graph.now }
    requires numbered { length graph.now ≤ 2 ^ 32 }
    ensures { IfOk result (ComesOf graph.now) }
{
    let mut state = State::begin(alloc, graph.len())?;
    for node in 0..graph.len() {
        if let Some(closing) = state.visit(graph, node as u32)? {
            return Ok(Walked::Circle(state.circle(alloc, closing)?));
        }
    }
    Ok(Walked::Order(List::from_vec(state.done)))
}
