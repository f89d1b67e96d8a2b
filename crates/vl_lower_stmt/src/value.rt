//! Expressions over the cells of a frame.
#![tactic(auto, using(wn_net::proofs::Laws::additions))]

ghost use Rattle.std.specs.Prelude.{IsSome, IfOk};
ghost use Rattle.fv_bits.specs.Bits.{bit};
ghost use Rattle.vl_size.specs.Size as spec;
ghost use Rattle.vl_size.specs.Size.{is_true, or_none, size};
ghost use Rattle.vl_mean.specs.FlatLaw.{flat_scopes};
ghost use Rattle.vl_mean.specs.Scopes.{operand_in};
ghost use Rattle.vl_lower_assign.specs.Frames.{AreCellsOf};
ghost use Rattle.vl_lower_stmt.specs.Layout.{IsLayout};
ghost use Rattle.vl_lower_stmt.specs.Executes.{Evaluates};

use crate::layout::{Layout, names_over};
use fv_text::Memory;
use vl_lower_expr::{WordType, own, term, truth};
use vl_tree::Expr;
use wn_net::{Net, NodeId};

/// 1 where an expression by itself isn't 0.
pub(crate) fn condition(
    net: &mut Net,
    layout: Layout<'_>,
    cells: &[NodeId],
    expr: &Expr,
) -> Result<NodeId, Memory>
    requires layout { IsLayout layout.decls.now layout.places.now }
    requires cells { AreCellsOf net.old layout.decls.now cells.now }
    requires sized { IsSome (size layout.decls.now expr.now) }
    ensures { IfOk result (Evaluates layout.entry.decls.now net.old net.new cells.now 1
        (λ v. bit (is_true (operand_in (flat_scopes layout.entry.decls.now) v expr.now)))) }
{
    let names = names_over(layout, cells);
    let test = truth(net, names, expr)?;
    Ok(test)
}

/// An expression in a context.
pub(crate) fn number_in(
    net: &mut Net,
    layout: Layout<'_>,
    cells: &[NodeId],
    expr: &Expr,
    kind: WordType,
) -> Result<NodeId, Memory>
    requires layout { IsLayout layout.decls.now layout.places.now }
    requires cells { AreCellsOf net.old layout.decls.now cells.now }
    requires sized { IsSome (size layout.decls.now expr.now) }
    ensures { IfOk result (Evaluates layout.entry.decls.now net.old net.new cells.now kind.width
        (λ v. (operand_in (flat_scopes layout.entry.decls.now) v expr.now).at kind.width kind.signed)) }
{
    let names = names_over(layout, cells);
    let node = term(net, names, expr, kind)?;
    Ok(node)
}

/// An expression by itself.
pub(crate) fn own_number(
    net: &mut Net,
    layout: Layout<'_>,
    cells: &[NodeId],
    expr: &Expr,
) -> Result<NodeId, Memory>
    requires layout { IsLayout layout.decls.now layout.places.now }
    requires cells { AreCellsOf net.old layout.decls.now cells.now }
    requires sized { IsSome (size layout.decls.now expr.now) }
    ensures { IfOk result (Evaluates layout.entry.decls.now net.old net.new cells.now
        (or_none (size layout.entry.decls.now expr.now))
        (λ v. spec.own (operand_in (flat_scopes layout.entry.decls.now) v expr.now))) }
{
    let names = names_over(layout, cells);
    let node = own(net, names, expr)?;
    Ok(node)
}
