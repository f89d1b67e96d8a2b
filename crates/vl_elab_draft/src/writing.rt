//! Drivers as they stand in a design without hierarchy, written behind those before them.
ghost use Rattle.std.specs.Prelude.{◌≡◌, OnOk, OnErr};
ghost use Rattle.vl_mean.specs.declared.driver.DriverKind.TheVariants as k;
ghost use Rattle.vl_mean_flat.specs.FullNames as full;
ghost use Rattle.vl_elab_draft.specs.Written as spec;

use crate::draft::Draft;
use crate::exprs::flat_expr;
use crate::scopes::Scopes;
use crate::stmts::flat_stmt;
use crate::targets::flat_lval;
use fv_text::{Memory, Pos};
use std::alloc::Global;
use vl_mean::{Driver, DriverKind};
use vl_tree::{Expr, Lval, Stmt};

/// Writes a continuous assignment or a port connection, whose target and value are read in scopes of their own (IEEE
/// 1364-2005, sections 6.1 and 12.3). The place is that of the item that it comes from. Where no memory is left nothing
/// is written.
pub fn write_equation(
    alloc: Global,
    pos: Pos,
    target: &Lval,
    target_scopes: &Scopes,
    value: &Expr,
    value_scopes: &Scopes,
    draft: &mut Draft,
) -> Result<(), Memory>
    ensures ok { OnOk result (draft.new ≡ spec.with_kind draft.old pos
        (k.Assign (full.flat_lval target_scopes.now target.now) (full.flat_expr value_scopes.now value.now))) }
    ensures err { OnErr result (draft.new ≡ draft.old) }
{
    let target = flat_lval(alloc, target, target_scopes)?;
    let value = flat_expr(alloc, value, value_scopes)?;
    draft.drive(Driver {
        pos,
        what: DriverKind::Assign(target, value),
    })
}

/// Writes a block that stands for a circuit without memory. Where no memory is left nothing is written.
pub fn write_combinational(
    alloc: Global,
    pos: Pos,
    stmt: &Stmt,
    scopes: &Scopes,
    draft: &mut Draft,
) -> Result<(), Memory>
    ensures ok { OnOk result (draft.new ≡ spec.with_kind draft.old pos (k.Comb (full.flat_stmt scopes.now stmt.now))) }
    ensures err { OnErr result (draft.new ≡ draft.old) }
{
    let stmt = flat_stmt(alloc, stmt, scopes)?;
    draft.drive(Driver {
        pos,
        what: DriverKind::Comb(stmt),
    })
}

/// Writes a block that acts at the clock's edge. Where no memory is left nothing is written.
pub fn write_clocked(
    alloc: Global,
    pos: Pos,
    stmt: &Stmt,
    scopes: &Scopes,
    draft: &mut Draft,
) -> Result<(), Memory>
    ensures ok { OnOk result (draft.new
        ≡ spec.with_kind draft.old pos (k.Clocked (full.flat_stmt scopes.now stmt.now))) }
    ensures err { OnErr result (draft.new ≡ draft.old) }
{
    let stmt = flat_stmt(alloc, stmt, scopes)?;
    draft.drive(Driver {
        pos,
        what: DriverKind::Clocked(stmt),
    })
}
