//! Sizes of expressions without a limit, up to `2^64 - 1`. They say how wide an expression is that is too wide.
ghost use Rattle.std.specs.Prelude.{◌≡◌};
ghost use Rattle.vl_tree.specs.Expr as tree;
ghost use Rattle.vl_tree.specs.Expr.{exprs};
ghost use Rattle.vl_tree.specs.ExprView.{selects, with_select};
ghost use Rattle.fv_bits.specs.Bits.{as_int};
ghost use Rattle.vl_mean.specs.ConstantFaults as spec;
ghost use Rattle.vl_mean.specs.Env.{cells_of};
ghost use Rattle.vl_mean.specs.Params.{constant};

use crate::env::Env;
use crate::evaluate::own;
use crate::params::Params;
use crate::widths::{binary_size, bound, plus, some, unary_size, wide_times};
use vl_size::{Own, size_of};
use vl_tree::{Expr, ExprKind, Select};

/// The size of an expression; None where a part has none.
#[cycle(wide)]
#[tactic(auto, using(vl_tree::specs::ExprFalls::parts_fall))]
pub(crate) fn wide(expr: &Expr, params: &Params, env: &Env) -> Option<u64>
    ensures { result ≡ spec.wide (constant params.now) env.now.decls (cells_of env.now) expr.now }
{
    match &expr.kind {
        ExprKind::Number(number) => Some(u64::from(number.width)),
        ExprKind::Name(text, all) => match params.get(text) {
            None => None,
            Some(_) => wide_first(all.as_slice(), env),
        },
        ExprKind::Paren(inner) => wide(inner, params, env),
        ExprKind::Unary(operator, operand) => {
            let size = wide(operand, params, env)?;
            Some(unary_size(*operator, size))
        }
        ExprKind::Binary(operator, left, right) => {
            let m = wide(left, params, env)?;
            let n = wide(right, params, env)?;
            Some(binary_size(*operator, m, n))
        }
        ExprKind::Conditional(_, first, second) => {
            let m = wide(first, params, env)?;
            let n = wide(second, params, env)?;
            Some(m.max(n))
        }
        ExprKind::Concat(parts) => some(wides(parts.as_slice(), params, env)?),
        ExprKind::Repeat(count, parts) => {
            let size = some(wides(parts.as_slice(), params, env)?)?;
            if_sized(
                size_of(count, env.decls()),
                wide_times(own(count, env), size),
            )
        }
        ExprKind::Cast(_, operand) => wide(operand, params, env),
    }
}

/// The sum of the sizes of the parts.
#[cycle(wide)]
#[tactic(auto, using(crate::proofs::Joined::parts))]
fn wides(all: &[Expr], params: &Params, env: &Env) -> Option<u64>
    ensures { result ≡ spec.wides (constant params.now) env.now.decls (cells_of env.now) (exprs all.now) }
{
    let mut sum = 0;
    let mut place = all.len();
    while place > 0 {
        place -= 1;
        sum = plus(wide(&all[place], params, env)?, sum);
    }
    Some(sum)
}

/// The size of a constant's first select.
fn wide_first(all: &[Select], env: &Env) -> Option<u64>
    ensures { result ≡ spec.wide_select env.now.decls (cells_of env.now) (selects all.now) }
{
    match all {
        [] => None,
        [first, ..] => wide_select(first, env),
    }
}

pub(crate) fn wide_select(select: &Select, env: &Env) -> Option<u64>
    ensures { (rest : tree.Selects) → result
        ≡ spec.wide_select env.now.decls (cells_of env.now) (with_select select.now rest) }
{
    match select {
        Select::Bit(_, _) => None,
        Select::Part(_, left, right) => {
            let size = wide_part(own(left, env), own(right, env));
            let size = if_sized(size_of(right, env.decls()), size);
            if_sized(size_of(left, env.decls()), size)
        }
        Select::Indexed(_, start, width) => {
            let size = wide_times(own(width, env), 1);
            let size = if_sized(size_of(width, env.decls()), size);
            if_sized(size_of(start, env.decls()), size)
        }
    }
}

/// Where there is a size.
fn if_sized(size: Option<u32>, wide: Option<u64>) -> Option<u64>
    ensures { result ≡ spec.if_sized size wide }
{
    match size {
        None => None,
        Some(_) => wide,
    }
}

/// A part from one bound down to the other.
pub(crate) fn wide_part(left: Own, right: Own) -> Option<u64>
    ensures { let l = as_int left.width left.signed left.number in
        let r = as_int right.width right.signed right.number in
        result ≡ spec.wide_part l r }
{
    let left = bound(left)?;
    let right = bound(right)?;
    if left < right {
        return None;
    }
    Some((left - right).unsigned_abs() + 1)
}
