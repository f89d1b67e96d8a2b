ghost use Rattle.std.specs.Prelude.{◌≡◌, ◌≤◌, length, drop, IfOk};
ghost use Rattle.fv_graph.specs.Walking.{nodes_of, nodes_from};

use crate::state::{State, Step};
use fv_text::{List, Memory};
use std::alloc::Global;

/// Where the node stands first, or the path's length.
fn place_of(path: &[Step], node: u32) -> usize
    ensures within { result ≤ length path.now }
    ensures there { nodes_of (drop result path.now) ≡ nodes_from path.now node }
{
    for (index, step) in path.iter().enumerate() {
        if step.node == node {
            return index;
        }
    }
    path.len()
}

fn nodes(alloc: Global, path: &[Step]) -> Result<List<u32>, Memory>
    ensures { IfOk result (λ found. found ≡ nodes_of path.now) }
{
    let mut found = List::new(alloc);
    for step in path {
        found.push(step.node)?;
    }
    Ok(found)
}

impl State {
    /// The nodes of the path from this one on.
    pub(crate) fn circle(&self, alloc: Global, closing: u32) -> Result<List<u32>, Memory>
        ensures { IfOk result (λ found. found ≡ nodes_from self.now.path.items closing) }
    {
        let path = self.path.as_slice();
        let from = place_of(path, closing);
        Ok(nodes(alloc, &path[from..])?)
    }
}
