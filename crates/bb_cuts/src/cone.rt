//! The gates between a node and the leaves of a cut, and its table.
ghost use Rattle.std.specs.Prelude.{◌≡◌, ℕ, Bool, List, ◌/◌, ◌<◌, IfOk, IfSome};
ghost use Rattle.std.specs.List.{AllByRecursion};
ghost use Rattle.bb_aig.specs.Graph.{lit_at, IsGraph};
ghost use Rattle.bb_aig.specs.declared.node.AigNode.{AigNode};
ghost use Rattle.bb_cuts.specs.declared.leaves.Leaves.{Leaves};
ghost use Rattle.bb_cuts.specs.Rows.{row_of, has_row};
ghost use Rattle.bb_cuts.specs.Variables.{IsTable, node_at};

use crate::cube::{FIRST, FOURTH, Rows, SECOND, THIRD, both_rows, other_rows};
use crate::leaves::Leaves;
use bb_aig::{Aig, AigNode, Lit};
use fv_text::Memory;

/// A node, and the rows in which it is true.
#[derive(Debug, Clone, Copy, PartialEq, Eq)]
pub(crate) struct Mark {
    pub node: u64,
    pub rows: Rows,
}

/// The rows in which a node is true, where it is marked.
fn node_rows(marks: &[Mark], node: u64) -> Option<Rows>
    ensures { IfSome result (λ rows. (graph : List AigNode) (leaves : Leaves)
        → AllByRecursion (λ m. IsTable graph leaves m.node m.rows) marks.now → IsTable graph leaves node rows) }
{
    for mark in marks {
        if mark.node == node {
            return Some(mark.rows);
        }
    }
    None
}

/// The rows in which a literal is true, where its node is marked.
fn literal_rows(marks: &[Mark], lit: Lit) -> Option<Rows>
    ensures { IfSome result (λ rows. (graph : List AigNode) (leaves : Leaves)
        → AllByRecursion (λ m. IsTable graph leaves m.node m.rows) marks.now
        → (x : ℕ → Bool) → has_row rows (row_of (node_at graph x) leaves) ≡ lit_at graph x lit) }
{
    let rows = node_rows(marks, lit / 2)?;
    if lit % 2 == 1 {
        return Some(other_rows(rows));
    }
    Some(rows)
}

/// The rows in which a gate is true, where what it reads is marked.
fn gate_rows(aig: &Aig, marks: &[Mark], node: u64) -> Option<Rows>
    ensures { IfSome result (λ rows. (leaves : Leaves)
        → AllByRecursion (λ m. IsTable aig.now leaves m.node m.rows) marks.now → IsTable aig.now leaves node rows) }
{
    let _ = aig.len();
    let Some(gate) = aig.node(node as usize) else {
        return None;
    };
    match gate {
        AigNode::And(a, b) => {
            let left = literal_rows(marks, a)?;
            let right = literal_rows(marks, b)?;
            Some(both_rows(left, right))
        }
        _ => None,
    }
}

/// Marks the leaves of a cut, behind node 0, which is false.
fn mark_leaves(marks: &mut Vec<Mark>, leaves: &Leaves) -> Result<(), Memory>
    ensures { IfOk result (λ u. (graph : List AigNode) → IsGraph graph
        → AllByRecursion (λ m. IsTable graph leaves.now m.node m.rows) marks.new.items) }
{
    let all = [
        Mark { node: 0, rows: 0 },
        Mark {
            node: leaves.first,
            rows: FIRST,
        },
        Mark {
            node: leaves.second,
            rows: SECOND,
        },
        Mark {
            node: leaves.third,
            rows: THIRD,
        },
        Mark {
            node: leaves.fourth,
            rows: FOURTH,
        },
    ];
    marks.clear();
    marks.extend_from_slice(&all)?;
    Ok(())
}

/// The table of the last node of a cone over the leaves of a cut. None where a gate reads what stands neither before
/// it nor among the leaves.
pub(crate) fn table_of(
    aig: &Aig,
    marks: &mut Vec<Mark>,
    leaves: &Leaves,
    cone: &[u64],
    node: u64,
) -> Result<Option<Rows>, Memory>
    ensures { IfOk result (λ o. IfSome o (IsTable aig.now leaves.now node)) }
{
    let _ = aig.len();
    mark_leaves(marks, leaves)?;
    for gate in cone {
        let Some(rows) = gate_rows(aig, marks.as_slice(), *gate) else {
            return Ok(None);
        };
        if *gate == node {
            return Ok(Some(rows));
        }
        marks.push(Mark { node: *gate, rows })?;
    }
    Ok(None)
}
