ghost use Rattle.std.specs.Prelude.{◌≡◌, ◌<◌, ◌++◌, ◌∷◌, [], length, slice_get, OnOk, IfOk};
ghost use Rattle.std.specs.Prelude.{OnSome, Some, ◌-◌, ◌^◌};
ghost use Rattle.fv_graph.specs.Graph.{IsWithin, targets};
ghost use Rattle.fv_graph.specs.declared.state.Progress.TheVariants as p;
ghost use Rattle.fv_graph.specs.Walking.{Came, Turned, Walks};

use crate::state::{Progress, State, Step};
use fv_text::{List, Memory};

/// The target that comes next. None exactly where the node has no further one.
#[tactic(auto, using(crate::proofs::Rows::rows))]
fn next_target(graph: &[List<u32>], step: Step) -> Option<u32>
    requires { step.node < length graph.now }
    ensures target { result ≡ slice_get (targets graph.now step.node) step.next }
    ensures few { OnSome result (step.next < 2 ^ 64 - 1) }
{
    let row = graph[step.node as usize].as_slice();
    let count = row.len();
    if step.next < count {
        Some(row[step.next])
    } else {
        None
    }
}

impl State {
    fn push(&mut self, step: Step) -> Result<(), Memory>
        ensures progress { self.new.progress ≡ self.old.progress }
        ensures done { self.new.done ≡ self.old.done }
        ensures ok { OnOk result (self.new.path.items ≡ self.old.path.items ++ step ∷ []) }
    {
        if self.path.push(step).is_err() {
            return Err(Memory);
        }
        Ok(())
    }

    /// From a node that was taken off the path to its next target. The target where it stands on the path.
    fn follow(
        &mut self,
        graph: &[List<u32>],
        step: Step,
        target: u32,
    ) -> Result<Option<u32>, Memory>
        requires walks { Walks graph.now self.old.progress.items (self.old.path.items ++ step ∷ [])
            self.old.done.items }
        requires target { slice_get (targets graph.now step.node) step.next ≡ Some target }
        requires few { step.next < 2 ^ 64 - 1 }
        requires within { target < length graph.now }
        ensures { IfOk result (λ o. Turned graph.now self.old.progress.items (self.old.path.items ++ step ∷ [])
            self.new.progress.items self.new.path.items self.new.done.items o) }
    {
        self.push(Step {
            node: step.node,
            next: step.next + 1,
        })?;
        match self.progress.as_slice()[target as usize] {
            Progress::New => {
                self.open(target)?;
                Ok(None)
            }
            Progress::Open => Ok(Some(target)),
            Progress::Done => Ok(None),
        }
    }

    /// Goes on from a node that was taken off the path. Some node of the path where it is closed from there on.
    fn turn(&mut self, graph: &[List<u32>], step: Step) -> Result<Option<u32>, Memory>
        requires walks { Walks graph.now self.old.progress.items (self.old.path.items ++ step ∷ [])
            self.old.done.items }
        requires within { IsWithin graph.now }
        ensures { IfOk result (λ o. Turned graph.now self.old.progress.items (self.old.path.items ++ step ∷ [])
            self.new.progress.items self.new.path.items self.new.done.items o) }
    {
        match next_target(graph, step) {
            None => {
                self.finish(step.node)?;
                Ok(None)
            }
            Some(target) => Ok(self.follow(graph, step, target)?),
        }
    }

    /// Puts a new node, and all that it leads to, behind those that are done. Some node of the path where it is closed
    /// from there on.
    pub(crate) fn from(&mut self, graph: &[List<u32>], node: u32) -> Result<Option<u32>, Memory>
        requires walks { Walks graph.now self.old.progress.items self.old.path.items self.old.done.items }
        requires empty { self.old.path.items ≡ [] }
        requires new { slice_get self.old.progress.items node ≡ Some p.New }
        requires within { IsWithin graph.now }
        ensures { IfOk result (λ o. Came graph.now self.old.progress.items node self.new.progress.items
            self.new.path.items self.new.done.items o) }
    {
        self.open(node)?;
        while let Some(step) = self.path.pop() {
            if let Some(closing) = self.turn(graph, step)? {
                return Ok(Some(closing));
            }
        }
        Ok(None)
    }
}
