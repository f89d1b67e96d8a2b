//! Assignments (IEEE 1364-2005, sections 6.1 and 9.2).
#![tactic(auto, using(wn_net::proofs::Laws::additions))]

ghost use Rattle.std.specs.Prelude.{◌≡◌, ◌≤◌, max, IsSome, OnOk};
ghost use Rattle.fv_text.specs.declared.pos.Pos.{Pos};
ghost use Rattle.vl_tree.specs.Attributes.{Attributes};
ghost use Rattle.vl_tree.specs.Stmt as s;
ghost use Rattle.vl_size.specs.Sign.{sign};
ghost use Rattle.vl_size.specs.Size.{or_none, size};
ghost use Rattle.vl_mean.specs.FlatLaw.{target_size};
ghost use Rattle.vl_lower_assign.specs.Slots.{IsPath};
ghost use Rattle.vl_lower_assign.specs.Frames.{IsFrame, cells_of};
ghost use Rattle.vl_lower_stmt.specs.Executes.{Executes};
ghost use Rattle.vl_lower_stmt.specs.Layout.{IsLayout};
ghost use Rattle.vl_lower_stmt.specs.Located.{IsSizedTarget};

use crate::layout::Layout;
use crate::target::{locate, width_of};
use crate::value::number_in;
use fv_text::{List, Memory};
use vl_lower_assign::{Frame, assign_slots};
use vl_lower_expr::WordType;
use vl_lower_nodes::fit;
use vl_size::{Decls, self_size, sign_of};
use vl_tree::{AssignKind, Expr, Lval};
use wn_net::{Net, NodeId};

/// The size and the sign that an expression has on the right side of an assignment to so many bits: the larger of both
/// sizes, and its own sign (section 5.4).
fn assigned_type(decls: &Decls, width: u32, expr: &Expr) -> WordType
    requires few { width ≤ 128 }
    requires sized { IsSome (size decls.now expr.now) }
    ensures width { result.width ≡ max width (or_none (size decls.now expr.now)) }
    ensures signed { result.signed ≡ sign decls.now expr.now }
{
    let Some(own) = self_size(expr, decls) else {
        unreachable!()
    };
    WordType {
        width: width.max(own),
        signed: sign_of(expr, decls),
    }
}

/// Assigns an expression to a target where the path is taken. The indices of the target are read before it is
/// assigned.
pub fn assign(
    net: &mut Net,
    layout: Layout<'_>,
    frame: &mut Frame,
    path: Option<NodeId>,
    target: &Lval,
    kind: AssignKind,
    expr: &Expr,
) -> Result<(), Memory>
    requires layout { IsLayout layout.decls.now layout.places.now }
    requires frame { IsFrame net.old layout.decls.now (cells_of frame.old) }
    requires path { IsPath net.old path }
    requires target { IsSizedTarget layout.decls.now target.now }
    requires few { target_size layout.decls.now target.now ≤ 128 }
    requires sized { IsSome (size layout.decls.now expr.now) }
    ensures { (attrs : Attributes) (p : Pos) → OnOk result (Executes layout.entry.decls.now net.old net.new
        (cells_of frame.old) (cells_of frame.new) path (s.assign attrs p target.now kind expr.now)) }
{
    let mut slots = List::new(layout.alloc);
    locate(net, layout, frame.now.as_slice(), target, &mut slots)?;
    let width = width_of(slots.as_slice());
    let context = assigned_type(layout.decls, width, expr);
    let number = number_in(net, layout, frame.now.as_slice(), expr, context)?;
    if width == 0 {
        // An empty concatenation.
        return Ok(());
    }
    let value = fit(net, number, width, false)?;
    Ok(assign_slots(
        layout.alloc,
        net,
        layout.decls,
        frame,
        path,
        kind,
        slots.as_slice(),
        value,
    )?)
}
