//! The first node on a circle. The graph gives for each node those that it leads to, by their numbers.
ghost use Rattle.std.specs.Prelude.{◌≡◌, ◌↔◌, ◌<◌, ◌≤◌, ◌^◌, ℕ, true, length, IsTrue, IfOk};
ghost use Rattle.fv_graph.specs.Graph.{IsWithin};
ghost use Rattle.aiger_text.specs.Circles.{IsOnCircle, IsFirstOnCircle, NoneRises, NoneAbove, AllBelow, rank};

use crate::ranks::guessed_ranks;
use crate::search::is_on_circle;
use fv_text::{List, Memory};
use std::alloc::Global;

fn rank_of(ranks: &[u32], node: u32) -> u32
    ensures { result ≡ rank ranks.now node }
{
    match ranks.get(node as usize) {
        Some(rank) => *rank,
        None => 0,
    }
}

/// Whether all targets have lower ranks than this one.
fn all_below(ranks: &[u32], row: &[u32], above: u32) -> bool
    ensures { IsTrue result ↔ AllBelow ranks.now row.now above }
{
    row.iter().all(|target| rank_of(ranks, *target) < above)
}

/// Whether no target has a higher rank than this one.
fn none_above(ranks: &[u32], row: &[u32], most: u32) -> bool
    ensures { IsTrue result ↔ NoneAbove ranks.now row.now most }
{
    row.iter().all(|target| rank_of(ranks, *target) <= most)
}

/// Whether no node leads to one of a higher rank.
fn none_rises(graph: &[List<u32>], ranks: &[u32]) -> bool
    requires { length graph.now ≤ 2 ^ 32 }
    ensures { result ≡ true → NoneRises graph.now ranks.now }
{
    for (node, row) in graph.iter().enumerate() {
        if !none_above(ranks, row.as_slice(), rank_of(ranks, node as u32)) {
            return false;
        }
    }
    true
}

/// Whether the node stands on a circle: on none if no rank rises and all its targets have lower ones, else by a search.
fn stands_on_circle(
    alloc: Global,
    graph: &[List<u32>],
    ranks: &[u32],
    ordered: bool,
    node: u32,
) -> Result<bool, Memory>
    requires within { IsWithin graph.now }
    requires there { node < length graph.now }
    requires ordered { ordered ≡ true → NoneRises graph.now ranks.now }
    ensures { IfOk result (λ b. IsTrue b ↔ IsOnCircle graph.now node) }
{
    let row = graph[node as usize].as_slice();
    if ordered && all_below(ranks, row, rank_of(ranks, node)) {
        return Ok(false);
    }
    is_on_circle(alloc, graph, node)
}

/// The first node on a circle. None where there is none. Time is about linear in the nodes and their targets: where no
/// rank rises, a node of which all targets have lower ranks is on no circle.
pub(crate) fn first_on_circle(alloc: Global, graph: &[List<u32>]) -> Result<Option<usize>, Memory>
    requires within { IsWithin graph.now }
    requires numbered { length graph.now ≤ 2 ^ 32 }
    ensures { IfOk result (IsFirstOnCircle graph.now) }
{
    let ranks = guessed_ranks(alloc, graph)?;
    let ranks = ranks.as_slice();
    let ordered = none_rises(graph, ranks);
    for node in 0..graph.len() {
        if stands_on_circle(alloc, graph, ranks, ordered, node as u32)? {
            return Ok(Some(node));
        }
    }
    Ok(None)
}
