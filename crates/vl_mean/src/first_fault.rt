//! The earliest fault in an expression that isn't a constant.
ghost use Rattle.std.specs.Prelude.{◌≡◌};
ghost use Rattle.fv_text.specs.declared.pos.Pos.{Pos};
ghost use Rattle.vl_tree.specs.Expr as tree;
ghost use Rattle.vl_tree.specs.Expr.{exprs};
ghost use Rattle.vl_tree.specs.ExprView.{selects, with_select};
ghost use Rattle.fv_bits.specs.Bits.{as_int};
ghost use Rattle.vl_mean.specs.ConstantFaults as spec;
ghost use Rattle.vl_mean.specs.Env.{cells_of};
ghost use Rattle.vl_mean.specs.Params.{constant};

use crate::const_fault::ConstFault;
use crate::earliest::earlier;
use crate::env::Env;
use crate::evaluate::own;
use crate::params::Params;
use crate::wide::{wide, wide_part, wide_select};
use crate::widths::{bound, wide_times};
use fv_text::{Pos, Text};
use vl_size::{Own, own_zero_divisor, selects_zero_divisor, size_of};
use vl_tree::{Expr, ExprKind, Select};

/// The earliest fault in a whole expression, in which numbers stand in place of constants.
pub(crate) fn first_fault(expr: &Expr, params: &Params, env: &Env) -> Option<ConstFault>
    ensures { result ≡ spec.first_fault (constant params.now) env.now.decls (cells_of env.now) expr.now }
{
    let divisor = divisor_fault(own_zero_divisor(expr, env.decls()));
    earlier(fault(expr, params, env), divisor)
}

fn divisor_fault(place: Option<Pos>) -> Option<ConstFault>
    ensures { result ≡ spec.divisor_fault place }
{
    match place {
        None => None,
        Some(pos) => Some(ConstFault::ZeroDivisor(pos)),
    }
}

/// The earliest fault in an expression, but for its divisors.
#[cycle(fault)]
#[tactic(auto, using(vl_tree::specs::ExprFalls::parts_fall))]
fn fault(expr: &Expr, params: &Params, env: &Env) -> Option<ConstFault>
    ensures { result ≡ spec.fault (constant params.now) env.now.decls (cells_of env.now) expr.now }
{
    let too_wide = too_wide(expr.pos, wide(expr, params, env));
    match &expr.kind {
        ExprKind::Number(_) => None,
        ExprKind::Name(text, all) => {
            let inner = selects_fault(all.as_slice(), params, env);
            name_fault(expr.pos, text, all.as_slice(), inner, params, env)
        }
        ExprKind::Paren(inner) | ExprKind::Unary(_, inner) | ExprKind::Cast(_, inner) => earlier(
            fault(inner, params, env),
            too_wide,
        ),
        ExprKind::Binary(_, left, right) => {
            let inner = earlier(fault(left, params, env), fault(right, params, env));
            earlier(inner, too_wide)
        }
        ExprKind::Conditional(condition, first, second) => {
            let both = earlier(fault(first, params, env), fault(second, params, env));
            earlier(earlier(fault(condition, params, env), both), too_wide)
        }
        ExprKind::Concat(parts) => {
            let own = no_part(expr.pos, parts.as_slice());
            earlier(
                faults(parts.as_slice(), params, env),
                earlier(own, too_wide),
            )
        }
        ExprKind::Repeat(count, parts) => {
            let own = no_part(expr.pos, parts.as_slice());
            let parts = faults(parts.as_slice(), params, env);
            let inner = earlier(fault(count, params, env), parts);
            let counted = earlier(count_fault(expr.pos, count, env), too_wide);
            earlier(inner, earlier(own, counted))
        }
    }
}

#[cycle(fault)]
#[tactic(auto, using(crate::proofs::Joined::parts))]
fn faults(all: &[Expr], params: &Params, env: &Env) -> Option<ConstFault>
    ensures { result ≡ spec.faults (constant params.now) env.now.decls (cells_of env.now) (exprs all.now) }
{
    let mut found = None;
    let mut place = all.len();
    while place > 0 {
        place -= 1;
        found = earlier(fault(&all[place], params, env), found);
    }
    found
}

/// A select behind the first one isn't right.
#[cycle(fault)]
#[tactic(auto, using(crate::proofs::Joined::parts))]
fn selects_fault(all: &[Select], params: &Params, env: &Env) -> Option<ConstFault>
    ensures { result ≡ spec.selects_fault (constant params.now) env.now.decls (cells_of env.now) (selects all.now) }
{
    let mut found = None;
    let mut place = all.len();
    while place > 1 {
        place -= 1;
        let select = &all[place];
        let inner = select_fault(select, params, env);
        found = earlier(
            Some(ConstFault::Range(bracket(select))),
            earlier(inner, found),
        );
    }
    match all {
        [] => None,
        [first, ..] => earlier(select_fault(first, params, env), found),
    }
}

/// The place of a select's bracket.
fn bracket(select: &Select) -> Pos
    ensures { result ≡ spec.bracket select.now }
{
    match select {
        Select::Bit(pos, _) | Select::Part(pos, _, _) | Select::Indexed(pos, _, _) => *pos,
    }
}

/// The earliest fault within a select.
#[cycle(fault)]
fn select_fault(select: &Select, params: &Params, env: &Env) -> Option<ConstFault>
    ensures { result ≡ spec.select_fault (constant params.now) env.now.decls (cells_of env.now) select.now }
{
    match select {
        Select::Bit(_, index) => fault(index, params, env),
        Select::Part(_, first, second) | Select::Indexed(_, first, second) => earlier(
            fault(first, params, env),
            fault(second, params, env),
        ),
    }
}

fn name_fault(
    pos: Pos,
    text: &Text,
    all: &[Select],
    inner: Option<ConstFault>,
    params: &Params,
    env: &Env,
) -> Option<ConstFault>
    ensures { result ≡ spec.name_fault env.now.decls (cells_of env.now) pos (constant params.now text.now)
        (selects all.now) inner }
{
    if params.get(text).is_none() {
        return earlier(inner, Some(ConstFault::NotConstant(pos)));
    }
    let divisor = divisor_fault(selects_zero_divisor(all, env.decls()));
    let own = earlier(divisor, first_select_fault(pos, all, env));
    let Some(found) = earlier(inner, own) else {
        return Some(ConstFault::Range(pos));
    };
    Some(found)
}

/// What is wrong with a constant's first select.
fn first_select_fault(pos: Pos, all: &[Select], env: &Env) -> Option<ConstFault>
    ensures { let ss = selects all.now in
        let ds = env.now.decls in
        let v = cells_of env.now in
        result ≡ spec.earlier (spec.range_fault ds v ss) (spec.too_wide pos (spec.wide_select ds v ss)) }
{
    match all {
        [] => None,
        [first, ..] => earlier(
            range_fault(first, env),
            too_wide(pos, wide_select(first, env)),
        ),
    }
}

/// A bound past 32 signed bits, a part against the direction, or one of a width below 1.
fn range_fault(select: &Select, env: &Env) -> Option<ConstFault>
    ensures { (rest : tree.Selects) → result
        ≡ spec.range_fault env.now.decls (cells_of env.now) (with_select select.now rest) }
{
    match select {
        Select::Bit(_, _) => None,
        Select::Part(pos, left, right) => {
            let bounds = earlier(bound_fault(*pos, left, env), bound_fault(*pos, right, env));
            earlier(bounds, part_fault(*pos, left, right, env))
        }
        Select::Indexed(pos, _, width) => {
            let size = wide_times(own(width, env), 1);
            if_sized(size_of(width, env.decls()), range_unless(*pos, size))
        }
    }
}

/// A bound past 32 signed bits, whatever the other one is.
fn bound_fault(pos: Pos, bound: &Expr, env: &Env) -> Option<ConstFault>
    ensures { result ≡ spec.bound_fault env.now.decls (cells_of env.now) pos bound.now }
{
    if_sized(size_of(bound, env.decls()), far_fault(pos, own(bound, env)))
}

fn far_fault(pos: Pos, index: Own) -> Option<ConstFault>
    ensures { let i = as_int index.width index.signed index.number in result ≡ spec.far_fault pos i }
{
    match bound(index) {
        None => Some(ConstFault::Range(pos)),
        Some(_) => None,
    }
}

/// Of two bounds.
fn part_fault(pos: Pos, left: &Expr, right: &Expr, env: &Env) -> Option<ConstFault>
    ensures { result ≡ spec.part_fault env.now.decls (cells_of env.now) pos left.now right.now }
{
    let size = wide_part(own(left, env), own(right, env));
    let found = if_sized(size_of(right, env.decls()), range_unless(pos, size));
    if_sized(size_of(left, env.decls()), found)
}

/// Where there is a size.
fn if_sized(size: Option<u32>, found: Option<ConstFault>) -> Option<ConstFault>
    ensures { result ≡ spec.if_sized size found }
{
    match size {
        None => None,
        Some(_) => found,
    }
}

fn range_unless(pos: Pos, size: Option<u64>) -> Option<ConstFault>
    ensures { result ≡ spec.range_unless pos size }
{
    match size {
        None => Some(ConstFault::Range(pos)),
        Some(_) => None,
    }
}

/// A concatenation and a replication have a part.
fn no_part(pos: Pos, all: &[Expr]) -> Option<ConstFault>
    ensures { result ≡ spec.no_part pos (exprs all.now) }
{
    match all {
        [] => Some(ConstFault::Range(pos)),
        [_, ..] => None,
    }
}

fn too_wide(pos: Pos, size: Option<u64>) -> Option<ConstFault>
    ensures { result ≡ spec.too_wide pos size }
{
    match size {
        None => None,
        Some(size) => if size <= 128 {
            None
        } else {
            Some(ConstFault::TooWide(pos, size))
        },
    }
}

fn count_fault(pos: Pos, count: &Expr, env: &Env) -> Option<ConstFault>
    ensures { result ≡ spec.count_fault env.now.decls (cells_of env.now) pos count.now }
{
    let found = range_unless(pos, wide_times(own(count, env), 1));
    if_sized(size_of(count, env.decls()), found)
}
