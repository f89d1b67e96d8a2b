//! Expressions as the targets that they stand for where an output is joined to them.
ghost use Rattle.std.specs.Prelude.{◌≡◌, IfOk, option_map};
ghost use Rattle.vl_tree.specs.Expr.{exprs};
ghost use Rattle.vl_tree.specs.Lval.{lvals};
ghost use Rattle.vl_mean.specs.Parts as parts;
ghost use Rattle.vl_elab_check_stmt.specs.Outputs as spec;

use fv_text::{List, Memory, Pos};
use std::alloc::Global;
use vl_mean::{Params, settled};
use vl_tree::{Expr, ExprKind, Lval, LvalKind};

fn as_name(expr: Expr) -> Option<Lval>
    ensures { result ≡ spec.name_target expr }
{
    let Expr { pos, kind } = expr;
    match kind {
        ExprKind::Name(text, all) => Some(Lval {
            pos,
            kind: LvalKind::Name(text, all),
        }),
        ExprKind::Number(_) | ExprKind::Paren(_) | ExprKind::Unary(_, _) => None,
        ExprKind::Binary(_, _, _) | ExprKind::Conditional(_, _, _) => None,
        ExprKind::Concat(_) | ExprKind::Repeat(_, _) | ExprKind::Cast(_, _) => None,
    }
}

/// A copy of a name with its selects: it is settled over no constants.
#[tactic(auto, using(crate::proofs::JoinedTargets::copied_target))]
fn name_target(alloc: Global, expr: &Expr) -> Result<Option<Lval>, Memory>
    ensures { IfOk result (λ l. l ≡ spec.name_target expr.now) }
{
    let none = Params::new(alloc);
    let copy = settled(alloc, expr, &none)?;
    Ok(as_name(copy))
}

fn joined(pos: Pos, all: Option<List<Lval>>) -> Option<Lval>
    ensures { result ≡ spec.joined_target pos (option_map lvals all) }
{
    Some(Lval {
        pos,
        kind: LvalKind::Concat(all?),
    })
}

/// The target that an output is joined to: a name with its selects, or a concatenation of such. None exactly where it
/// is neither.
#[cycle(target)]
#[tactic(auto, using(vl_tree::specs::ExprFalls::parts_fall))]
pub fn target_of(alloc: Global, expr: &Expr) -> Result<Option<Lval>, Memory>
    ensures { IfOk result (λ l. l ≡ parts.target_of expr.now) }
{
    match &expr.kind {
        ExprKind::Name(_, _) => name_target(alloc, expr),
        ExprKind::Concat(all) => {
            let targets = targets_of(alloc, all.as_slice())?;
            Ok(joined(expr.pos, targets))
        }
        ExprKind::Number(_) | ExprKind::Paren(_) | ExprKind::Unary(_, _) => Ok(None),
        ExprKind::Binary(_, _, _) | ExprKind::Conditional(_, _, _) => Ok(None),
        ExprKind::Repeat(_, _) | ExprKind::Cast(_, _) => Ok(None),
    }
}

#[cycle(target)]
#[tactic(auto, using(vl_elab_check_expr::proofs::Lowest::judged))]
fn targets_of(alloc: Global, all: &[Expr]) -> Result<Option<List<Lval>>, Memory>
    ensures { IfOk result (λ ls. option_map lvals ls ≡ parts.targets_of (exprs all.now)) }
{
    let mut targets = List::new(alloc);
    for part in all {
        let target = target_of(alloc, part)?;
        match target {
            None => return Ok(None),
            Some(target) => targets.push(target)?,
        }
    }
    Ok(Some(targets))
}
