//! Paths on which a condition holds, or doesn't (IEEE 1364-2005, section 9.4).
#![tactic(auto, using(wn_net::proofs::Laws::additions))]

ghost use Rattle.std.specs.Prelude.{not, IsSome, IfOk};
ghost use Rattle.vl_size.specs.Size.{size};
ghost use Rattle.vl_lower_assign.specs.Slots.{IsPath};
ghost use Rattle.vl_lower_assign.specs.Frames.{AreCellsOf};
ghost use Rattle.vl_lower_stmt.specs.Layout.{IsLayout};
ghost use Rattle.vl_lower_stmt.specs.Executes.{Enters};

use crate::layout::Layout;
use crate::value::condition;
use fv_text::Memory;
use vl_lower_assign::{path_unless, path_where};
use vl_tree::Expr;
use wn_net::{Net, NodeId};

/// The path that goes on where an expression isn't 0.
pub(crate) fn path_if(
    net: &mut Net,
    layout: Layout<'_>,
    cells: &[NodeId],
    path: Option<NodeId>,
    expr: &Expr,
) -> Result<NodeId, Memory>
    requires layout { IsLayout layout.decls.now layout.places.now }
    requires cells { AreCellsOf net.old layout.decls.now cells.now }
    requires path { IsPath net.old path }
    requires sized { IsSome (size layout.decls.now expr.now) }
    ensures { IfOk result (Enters layout.entry.decls.now net.old net.new cells.now path (λ b. b) expr.now) }
{
    let test = condition(net, layout, cells, expr)?;
    let inner = path_where(net, path, test)?;
    Ok(inner)
}

/// Two paths.
#[derive(Debug, Clone, Copy)]
pub(crate) struct Fork {
    pub(crate) taken: NodeId,
    pub(crate) other: NodeId,
}

/// The paths that go on where an expression isn't 0, and where it is.
pub(crate) fn two_paths(
    net: &mut Net,
    layout: Layout<'_>,
    cells: &[NodeId],
    path: Option<NodeId>,
    expr: &Expr,
) -> Result<Fork, Memory>
    requires layout { IsLayout layout.decls.now layout.places.now }
    requires cells { AreCellsOf net.old layout.decls.now cells.now }
    requires path { IsPath net.old path }
    requires sized { IsSome (size layout.decls.now expr.now) }
    ensures taken { IfOk result (λ f. Enters layout.entry.decls.now net.old net.new cells.now path (λ b. b)
        expr.now f.taken) }
    ensures other { IfOk result (λ f. Enters layout.entry.decls.now net.old net.new cells.now path (λ b. not b)
        expr.now f.other) }
{
    let test = condition(net, layout, cells, expr)?;
    let taken = path_where(net, path, test)?;
    let other = path_unless(net, path, test)?;
    Ok(Fork { taken, other })
}
