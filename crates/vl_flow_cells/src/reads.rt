ghost use Rattle.std.specs.Prelude.{◌≡◌, OnOk};
ghost use Rattle.vl_tree.specs.Expr.{exprs, whole};
ghost use Rattle.vl_tree.specs.ExprView.{selects, with_select};
ghost use Rattle.vl_flow_spec.specs.Paths as paths;
ghost use Rattle.vl_flow_spec.specs.Reads as spec;
ghost use Rattle.vl_flow_cells.specs.Numbered.{Adds};
ghost use Rattle.vl_flow_cells.specs.Numbering.{IsNumberingOf};
ghost use Rattle.vl_flow_cells.specs.Sized.{AreSized, IsSized, LabelsAreSized, SelectsAreSized};

use crate::cell_run::CellRun;
use crate::numbering::Numbering;
use crate::runs::put;
use fv_text::Memory;
use vl_size::Decls;
use vl_tree::{Expr, ExprKind, Select};

/// Puts the bits that an expression reads behind the others.
#[cycle(reads)]
#[tactic(auto, using(vl_tree::specs::ExprFalls::parts_fall))]
pub fn expr_reads(
    expr: &Expr,
    decls: &Decls,
    numbering: &Numbering,
    into: &mut Vec<CellRun>,
) -> Result<(), Memory>
    requires { IsNumberingOf decls.now numbering.now }
    ensures { OnOk result (IsSized decls.now expr.now
        → Adds decls.now into.old.items into.new.items (spec.reads decls.now expr.now)) }
{
    match &expr.kind {
        ExprKind::Number(_) => Ok(()),
        ExprKind::Name(text, all) => {
            put(into, numbering.taken(decls, text, all.as_slice()))?;
            selects_read(all.as_slice(), decls, numbering, into)?;
            Ok(())
        }
        ExprKind::Paren(inner) | ExprKind::Unary(_, inner) | ExprKind::Cast(_, inner) => {
            expr_reads(inner, decls, numbering, into)?;
            Ok(())
        }
        ExprKind::Binary(_, left, right) => {
            expr_reads(left, decls, numbering, into)?;
            expr_reads(right, decls, numbering, into)?;
            Ok(())
        }
        ExprKind::Conditional(condition, first, second) => {
            expr_reads(condition, decls, numbering, into)?;
            expr_reads(first, decls, numbering, into)?;
            expr_reads(second, decls, numbering, into)?;
            Ok(())
        }
        ExprKind::Concat(parts) => {
            all_read(parts.as_slice(), decls, numbering, into)?;
            Ok(())
        }
        ExprKind::Repeat(count, parts) => {
            expr_reads(count, decls, numbering, into)?;
            all_read(parts.as_slice(), decls, numbering, into)?;
            Ok(())
        }
    }
}

/// The same for each of them.
#[cycle(reads)]
fn all_read(
    all: &[Expr],
    decls: &Decls,
    numbering: &Numbering,
    into: &mut Vec<CellRun>,
) -> Result<(), Memory>
    requires { IsNumberingOf decls.now numbering.now }
    ensures { OnOk result (AreSized decls.now (exprs all.now)
        → Adds decls.now into.old.items into.new.items (spec.parts_read decls.now (exprs all.now))) }
{
    for part in all {
        expr_reads(part, decls, numbering, into)?;
    }
    Ok(())
}

/// The bits that the indices of selects read.
#[cycle(reads)]
pub(crate) fn selects_read(
    all: &[Select],
    decls: &Decls,
    numbering: &Numbering,
    into: &mut Vec<CellRun>,
) -> Result<(), Memory>
    requires { IsNumberingOf decls.now numbering.now }
    ensures { OnOk result (SelectsAreSized decls.now (selects all.now)
        → Adds decls.now into.old.items into.new.items (spec.selects_read decls.now (selects all.now))) }
{
    for select in all {
        select_reads(select, decls, numbering, into)?;
    }
    Ok(())
}

#[cycle(reads)]
fn select_reads(
    select: &Select,
    decls: &Decls,
    numbering: &Numbering,
    into: &mut Vec<CellRun>,
) -> Result<(), Memory>
    requires { IsNumberingOf decls.now numbering.now }
    ensures { OnOk result (SelectsAreSized decls.now (with_select select.now whole)
        → Adds decls.now into.old.items into.new.items (spec.selects_read decls.now (with_select select.now whole))) }
{
    match select {
        Select::Bit(_, index) => {
            expr_reads(index, decls, numbering, into)?;
            Ok(())
        }
        Select::Part(_, left, right) => {
            expr_reads(left, decls, numbering, into)?;
            expr_reads(right, decls, numbering, into)?;
            Ok(())
        }
        Select::Indexed(_, start, count) => {
            expr_reads(start, decls, numbering, into)?;
            expr_reads(count, decls, numbering, into)?;
            Ok(())
        }
    }
}

/// The same for the labels of an arm.
pub fn labels_read(
    all: &[Expr],
    decls: &Decls,
    numbering: &Numbering,
    into: &mut Vec<CellRun>,
) -> Result<(), Memory>
    requires { IsNumberingOf decls.now numbering.now }
    ensures { OnOk result (LabelsAreSized decls.now all.now
        → Adds decls.now into.old.items into.new.items (paths.labels_read decls.now all.now)) }
{
    for label in all {
        expr_reads(label, decls, numbering, into)?;
    }
    Ok(())
}
