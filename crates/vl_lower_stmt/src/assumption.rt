//! `assume`.
#![tactic(auto, using(wn_net::proofs::Laws::additions))]

ghost use Rattle.std.specs.Prelude.{◌≡◌, ◌==◌, ◌||◌, not, IsSome, IfOk, OnOk};
ghost use Rattle.fv_text.specs.declared.pos.Pos.{Pos};
ghost use Rattle.fv_bits.specs.Bits.{bit};
ghost use Rattle.vl_tree.specs.Attributes.{Attributes};
ghost use Rattle.vl_tree.specs.Stmt as s;
ghost use Rattle.vl_size.specs.Size.{size};
ghost use Rattle.wn_net.specs.Value.{Given};
ghost use Rattle.wn_net.specs.Net.{IsNodeOf, value_at};
ghost use Rattle.wn_net.specs.Given.{IsGiven};
ghost use Rattle.wn_net.specs.Changes.{AddsNodes};
ghost use Rattle.vl_lower_assign.specs.Slots.{IsPath, is_taken};
ghost use Rattle.vl_lower_assign.specs.Frames.{IsFrame, cells_of};
ghost use Rattle.vl_lower_stmt.specs.Layout.{IsLayout};
ghost use Rattle.vl_lower_stmt.specs.Executes.{Executes};

use crate::layout::Layout;
use crate::value::condition;
use fv_text::Memory;
use vl_lower_assign::Frame;
use vl_tree::Expr;
use wn_net::{Net, NodeId};

/// A node that is 0 exactly where the path is taken and a test isn't 1.
fn met_where(net: &mut Net, path: Option<NodeId>, test: NodeId) -> Result<NodeId, Memory>
    requires path { IsPath net.old path }
    requires test { IsNodeOf net.old 1 test }
    ensures adds { AddsNodes net.old net.new }
    ensures there { IfOk result (IsNodeOf net.new 1) }
    ensures value { IfOk result (λ id. (g : Given) → IsGiven net.old g
        → value_at net.new g id ≡ bit (not (is_taken net.old g path) || (value_at net.old g test == 1))) }
{
    // Asked for what it says of the net: numbers are below 2 to their widths.
    let _width = net.width(test);
    match path {
        None => Ok(test),
        Some(taken) => {
            let other = net.not(taken)?;
            let met = net.or(other, test)?;
            Ok(met)
        }
    }
}

/// Assumes that an expression isn't 0 where the path is taken (rule of this project).
pub(crate) fn assume(
    net: &mut Net,
    layout: Layout<'_>,
    frame: &mut Frame,
    path: Option<NodeId>,
    expr: &Expr,
) -> Result<(), Memory>
    requires layout { IsLayout layout.decls.now layout.places.now }
    requires frame { IsFrame net.old layout.decls.now (cells_of frame.old) }
    requires path { IsPath net.old path }
    requires sized { IsSome (size layout.decls.now expr.now) }
    ensures { (attrs : Attributes) (p : Pos) → OnOk result (Executes layout.entry.decls.now net.old net.new
        (cells_of frame.old) (cells_of frame.new) path (s.assume attrs p expr.now)) }
{
    let test = condition(net, layout, frame.now.as_slice(), expr)?;
    let met = met_where(net, path, test)?;
    frame.assumed.push(met)?;
    Ok(())
}
