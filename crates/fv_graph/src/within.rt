ghost use Rattle.std.specs.Prelude.{◌↔◌, ◌<◌, All, IsTrue};
ghost use Rattle.fv_graph.specs.Graph.{IsWithin};

use fv_text::List;

/// Whether all targets are among so many nodes.
fn is_row_within(row: &[u32], count: usize) -> bool
    ensures { IsTrue result ↔ All (λ j. j < count) row.now }
{
    row.iter().all(|target| (*target as usize) < count)
}

/// Whether each node leads to nodes of the graph alone, as a walk needs it.
pub fn is_within(graph: &[List<u32>]) -> bool
    ensures { IsTrue result ↔ IsWithin graph.now }
{
    for row in graph {
        if !is_row_within(row.as_slice(), graph.len()) {
            return false;
        }
    }
    true
}
