//! Cells that all have the number 0.
#![tactic(auto, using(wn_net::proofs::Laws::additions))]

ghost use Rattle.std.specs.Prelude.{◌≡◌, ◌≤◌, ◌++◌, All, IfOk, OnOk, replicate};
ghost use Rattle.vl_mean.specs.FlatLaw.{IsKept};
ghost use Rattle.vl_lower_assign.specs.Frames.{cell_widths};
ghost use Rattle.wn_net.specs.Changes.{AddsNodes};
ghost use Rattle.vl_lower_stmt.specs.Zeros.{AreZeros, PutsZeros};

use fv_text::{Memory, Word};
use std::alloc::Global;
use vl_flow_cells::cell_count;
use vl_size::{Decl, Decls};
use wn_net::{Net, NodeId};

/// Puts the node behind the others, so many times.
fn put_copies(cells: &mut Vec<NodeId>, node: NodeId, count: u64) -> Result<(), Memory>
    ensures { OnOk result (cells.new.items ≡ cells.old.items ++ replicate count node) }
{
    for _ in 0..count {
        if cells.push(node).is_err() {
            return Err(Memory);
        }
    }
    Ok(())
}

/// Puts a node for each cell of a name behind the others.
fn put_zeros(net: &mut Net, decl: &Decl, cells: &mut Vec<NodeId>) -> Result<(), Memory>
    requires kept { IsKept decl.now }
    requires some { 1 ≤ decl.now.width }
    requires few { decl.now.width ≤ 128 }
    ensures { OnOk result (PutsZeros net.old net.new decl.now cells.old.items cells.new.items) }
{
    let zero = net.konst(Word {
        width: decl.width,
        high: 0,
        low: 0,
    })?;
    put_copies(cells, zero, cell_count(decl))?;
    Ok(())
}

/// A node of the number 0 for each cell of declared names.
pub(crate) fn zero_cells(alloc: Global, net: &mut Net, decls: &Decls) -> Result<Vec<NodeId>, Memory>
    requires { All IsKept decls.now }
    ensures adds { OnOk result (AddsNodes net.old net.new) }
    ensures zeros { IfOk result (λ cells. AreZeros net.new (cell_widths decls.now) cells.items) }
{
    let mut cells = Vec::new(alloc);
    for index in 0..decls.len() {
        match decls.get(index) {
            None => unreachable!(),
            Some(decl) => put_zeros(net, decl, &mut cells)?,
        }
    }
    Ok(cells)
}
