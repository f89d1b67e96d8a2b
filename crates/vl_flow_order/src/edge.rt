ghost use Rattle.std.specs.Prelude.{◌≡◌, ◌<◌, ◌++◌, ◌∷◌, [], length, slice_set, OnOk};
ghost use Rattle.fv_graph.specs.Graph.{targets};
ghost use Rattle.vl_flow_order.specs.Edges.{AddsEdge};

use fv_text::{List, Memory};

/// Lets one node lead to another.
pub(crate) fn add_edge(graph: &mut Vec<List<u32>>, from: u32, to: u32) -> Result<(), Memory>
    requires { from < length graph.old.items }
    ensures { OnOk result (AddsEdge graph.old.items from to graph.new.items) }
{
    graph[from as usize].push(to)?;
    Ok(())
}
