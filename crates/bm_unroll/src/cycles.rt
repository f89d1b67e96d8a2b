ghost use Rattle.std.specs.Prelude.{◌≡◌, ◌↔◌, ◌+◌, ◌<◌, ◌≤◌, ◌++◌, [], length, map};
ghost use Rattle.std.specs.Prelude.{slice_index, IfOk, OnOk};
ghost use Rattle.std.specs.List.{AllByRecursion};
ghost use Rattle.wn_net.specs.Value.{Given};
ghost use Rattle.wn_net.specs.Given.{IsGiven};
ghost use Rattle.wn_net.specs.Net.{IsNet, IsNode, AreNodes, shape_of, widths_of, values_of, value_at};
ghost use Rattle.wn_net.specs.Changes.{AddsNodes};
ghost use Rattle.wn_run.specs.Runs.{IsMet, cycle_at};
ghost use Rattle.wn_mem.specs.Words.{numbers_of};
ghost use Rattle.bm_unroll.specs.Cycle.{StandFor, given_by, state_by, widths_at};
ghost use Rattle.bm_unroll.specs.Walk.{AreOther, AreRows, IsBadAt, IsStart, Passes, rows_by};

use crate::copy::copy_cycle;
use crate::next::next_nodes;
use crate::state::StateNodes;
use crate::walked::Walked;
use fv_text::{List, Memory};
use std::alloc::Global;
use wn_net::{Net, NodeId};

/// Adds what stands for the nodes of these numbers.
fn add_nodes(ids: &[NodeId], table: &[NodeId], made: &mut Vec<NodeId>) -> Result<(), Memory>
    requires { AllByRecursion (λ id. id < length table.now) ids.now }
    ensures { OnOk result (made.new.items ≡ made.old.items ++ map (slice_index table.now) ids.now) }
{
    for id in ids {
        made.push(table[*id as usize])?;
    }
    Ok(())
}

/// What stands for the nodes of one cycle; adds what stands for the assumptions.
fn assumed_cycle(
    alloc: Global,
    frames: &mut Net,
    net: &Net,
    row: &List<NodeId>,
    state: &StateNodes,
    roots: &mut Vec<NodeId>,
) -> Result<Vec<NodeId>, Memory>
    requires { StandFor frames.old net.now row.now state.now }
    ensures adds { AddsNodes frames.old frames.new }
    ensures whole { IsNet net.now }
    ensures there { IfOk result (λ t. AreNodes frames.new t.items) }
    ensures widths { IfOk result (λ t. widths_at frames.new t.items ≡ widths_of net.now) }
    ensures numbers { IfOk result (λ t. (g : Given) → IsGiven frames.old g
        → numbers_of frames.new g t.items ≡ values_of net.now (given_by frames.old g row.now state.now)) }
    ensures roots { IfOk result (λ t. roots.new.items
        ≡ roots.old.items ++ map (slice_index t.items) net.now.assumes) }
{
    let wanted = net.assumes();
    let inputs = row.as_slice();
    let table = copy_cycle(alloc, frames, net, inputs, state)?;
    let copies = table.as_slice();
    add_nodes(wanted, copies, roots)?;
    Ok(table)
}

/// What stands for the state behind the first cycles; adds what stands for the assumptions in each.
fn pass_cycles(
    alloc: Global,
    frames: &mut Net,
    net: &Net,
    rows: &[List<NodeId>],
    cycle: u32,
    start: StateNodes,
    roots: &mut Vec<NodeId>,
) -> Result<StateNodes, Memory>
    requires many { cycle ≤ length rows.now }
    requires rows { AreRows frames.old (shape_of net.now) rows.now }
    requires start { IsStart frames.old (shape_of net.now) start }
    requires none { roots.old.items ≡ [] }
    ensures adds { AddsNodes frames.old frames.new }
    ensures passes { IfOk result (λ state. Passes frames.old frames.new net.now rows.now start cycle state
        roots.new.items) }
{
    let mut state = start;
    for index in 0..cycle as usize {
        let row = &rows[index];
        let table = assumed_cycle(alloc, frames, net, row, &state, roots)?;
        let copies = table.as_slice();
        state = next_nodes(alloc, frames, net, copies, &state)?;
    }
    Ok(state)
}

/// What stands for a node.
fn node_at(table: &[NodeId], id: NodeId) -> NodeId
    requires { id < length table.now }
    ensures { result ≡ slice_index table.now id }
{
    table[id as usize]
}

/// What stands for the nodes of these numbers.
fn nodes_at(alloc: Global, ids: &[NodeId], table: &[NodeId]) -> Result<Vec<NodeId>, Memory>
    requires { AllByRecursion (λ id. id < length table.now) ids.now }
    ensures { IfOk result (λ r. r.items ≡ map (slice_index table.now) ids.now) }
{
    let mut made = Vec::with_capacity(alloc, ids.len())?;
    for id in ids {
        made.push(table[*id as usize])?;
    }
    Ok(made)
}

/// What stands for the watched nodes in a cycle; adds what stands for the assumptions and for the bad node.
fn last_cycle(
    alloc: Global,
    frames: &mut Net,
    net: &Net,
    row: &List<NodeId>,
    state: &StateNodes,
    bad: NodeId,
    watch: &[NodeId],
    roots: Vec<NodeId>,
) -> Result<Walked, Memory>
    requires stand { StandFor frames.old net.now row.now state.now }
    requires roots { AreNodes frames.old roots.items }
    requires bad { IsNode net.now bad }
    requires watch { AreNodes net.now watch.now }
    ensures adds { AddsNodes frames.old frames.new }
    ensures there { IfOk result (λ w. AreNodes frames.new w.roots.items) }
    ensures watch_there { IfOk result (λ w. AreNodes frames.new w.watch.items) }
    ensures roots { IfOk result (λ w. (g : Given) → IsGiven frames.old g
        → AreOther (numbers_of frames.new g w.roots.items)
        ↔ (AreOther (numbers_of frames.old g roots.items)
        × IsMet net.now (given_by frames.old g row.now state.now)
        × (value_at net.now (given_by frames.old g row.now state.now) bad ≡ 0 → ⊥))) }
    ensures watch { IfOk result (λ w. (g : Given) → IsGiven frames.old g
        → numbers_of frames.new g w.watch.items
        ≡ map (value_at net.now (given_by frames.old g row.now state.now)) watch.now) }
{
    let mut roots = roots;
    let table = assumed_cycle(alloc, frames, net, row, state, &mut roots)?;
    let copies = table.as_slice();
    let last = node_at(copies, bad);
    roots.push(last)?;
    let watch = nodes_at(alloc, watch, copies)?;
    Ok(Walked { roots, watch })
}

/// The cycles from 0 up to one, with these inputs in each and this start.
pub fn walk_cycles(
    alloc: Global,
    frames: &mut Net,
    net: &Net,
    rows: &[List<NodeId>],
    cycle: u32,
    start: StateNodes,
    bad: NodeId,
    watch: &[NodeId],
) -> Result<Walked, Memory>
    requires each { length rows.now ≡ cycle + 1 }
    requires rows { AreRows frames.old (shape_of net.now) rows.now }
    requires start { IsStart frames.old (shape_of net.now) start }
    requires bad { IsNode net.now bad }
    requires watch { AreNodes net.now watch.now }
    ensures adds { AddsNodes frames.old frames.new }
    ensures there { IfOk result (λ w. AreNodes frames.new w.roots.items) }
    ensures watch_there { IfOk result (λ w. AreNodes frames.new w.watch.items) }
    ensures roots { IfOk result (λ w. (g : Given) → IsGiven frames.old g
        → AreOther (numbers_of frames.new g w.roots.items)
        ↔ IsBadAt net.now (rows_by frames.old g rows.now) (state_by frames.old g start) bad cycle) }
    ensures watch { IfOk result (λ w. (g : Given) → IsGiven frames.old g
        → numbers_of frames.new g w.watch.items
        ≡ map (value_at net.now (cycle_at net.now (rows_by frames.old g rows.now) (state_by frames.old g start)
        cycle)) watch.now) }
{
    let mut roots = Vec::new(alloc);
    let state = pass_cycles(alloc, frames, net, rows, cycle, start, &mut roots)?;
    let last = cycle as usize;
    let row = &rows[last];
    let walked = last_cycle(alloc, frames, net, row, &state, bad, watch, roots)?;
    Ok(walked)
}
