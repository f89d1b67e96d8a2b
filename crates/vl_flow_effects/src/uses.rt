ghost use Rattle.std.specs.Prelude.{◌≡◌, IfOk, List};
ghost use Rattle.vl_size.specs.declared.decl.Decl.{Decl};
ghost use Rattle.vl_mean.specs.declared.driver.DriverKind.TheVariants as k;
ghost use Rattle.vl_tree.specs.Stmt.{Stmt};
ghost use Rattle.vl_flow_cells.specs.Numbering.{IsNumberingOf};
ghost use Rattle.vl_flow_effects.specs.Assigning.{AreAssignedIn};
ghost use Rattle.vl_flow_effects.specs.Effects.{IsEffectOf};
ghost use Rattle.vl_flow_effects.specs.Uses.{AreUsesOf};
ghost use Rattle.vl_flow_cells.specs.Sized.{DriverIsSized, IsSized, TargetIsSized};

use crate::assigned::Assigned;
use crate::bits::{assign_reads, changes_of};
use crate::effect::Effect;
use crate::stmt::effect_of;
use fv_bit_sets::Bits;
use fv_text::Memory;
use std::alloc::Global;
use vl_flow_cells::Numbering;
use vl_flow_order::Footprint;
use vl_mean::DriverKind;
use vl_size::Decls;
use vl_tree::{Expr, Lval};

/// What a driver does to bits of numbered cells, and the names that it assigns.
#[derive(Debug, Drop)]
pub struct Uses {
    pub footprint: Footprint,
    /// Changed on some path of a combinational block, and not surely assigned on some.
    pub latched: Bits,
    pub assigned: Assigned,
}

fn assign_uses(
    alloc: Global,
    target: &Lval,
    expr: &Expr,
    decls: &Decls,
    numbering: &Numbering,
) -> Result<Uses, Memory>
    requires { IsNumberingOf decls.now numbering.now }
    ensures { IfOk result (λ uses. TargetIsSized decls.now target.now → IsSized decls.now expr.now
        → AreUsesOf decls.now uses (k.Assign target.now expr.now)) }
{
    let needs = assign_reads(alloc, target, expr, decls, numbering)?;
    let drives = changes_of(alloc, target, decls, numbering)?;
    Ok(Uses {
        footprint: Footprint {
            is_clocked: false,
            needs,
            drives,
        },
        latched: Bits::none(alloc),
        assigned: Assigned::none(alloc),
    })
}

/// A combinational block, with what it does.
fn comb_uses(effect: Effect, assigned: Assigned) -> Result<Uses, Memory>
    ensures { IfOk result (λ uses. (ds : List Decl) (s : Stmt) → IsEffectOf ds effect s
        → AreAssignedIn ds s assigned → AreUsesOf ds uses (k.Comb s)) }
{
    let Effect {
        needs,
        sure,
        surely,
        blocking,
        nonblocking,
    } = effect;
    drop(sure);
    let drives = blocking.with(&nonblocking)?;
    let latched = drives.without(&surely)?;
    Ok(Uses {
        footprint: Footprint {
            is_clocked: false,
            needs,
            drives,
        },
        latched,
        assigned,
    })
}

/// A clocked block, with what it does.
fn clocked_uses(alloc: Global, effect: Effect, assigned: Assigned) -> Result<Uses, Memory>
    ensures { IfOk result (λ uses. (ds : List Decl) (s : Stmt) → IsEffectOf ds effect s
        → AreAssignedIn ds s assigned → AreUsesOf ds uses (k.Clocked s)) }
{
    let Effect {
        needs,
        sure,
        surely,
        blocking,
        nonblocking,
    } = effect;
    drop(sure);
    drop(surely);
    let drives = blocking.with(&nonblocking)?;
    Ok(Uses {
        footprint: Footprint {
            is_clocked: true,
            needs,
            drives,
        },
        latched: Bits::none(alloc),
        assigned,
    })
}

/// What a driver reads before it has surely assigned it, may assign, doesn't assign on each path, and which names it
/// assigns. Time is about linear in it.
pub fn uses_of(
    alloc: Global,
    what: &DriverKind,
    decls: &Decls,
    numbering: &Numbering,
) -> Result<Uses, Memory>
    requires { IsNumberingOf decls.now numbering.now }
    ensures { IfOk result (λ uses. DriverIsSized decls.now what.now → AreUsesOf decls.now uses what.now) }
{
    match what {
        DriverKind::Assign(target, expr) => Ok(assign_uses(alloc, target, expr, decls, numbering)?),
        DriverKind::Comb(stmt) => {
            let assigned = Assigned::of(alloc, stmt, decls)?;
            Ok(comb_uses(effect_of(alloc, stmt, decls, numbering)?, assigned)?)
        }
        DriverKind::Clocked(stmt) => {
            let assigned = Assigned::of(alloc, stmt, decls)?;
            Ok(clocked_uses(alloc, effect_of(alloc, stmt, decls, numbering)?, assigned)?)
        }
    }
}
