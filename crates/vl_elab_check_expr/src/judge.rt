//! Where expressions are refused.
ghost use Rattle.std.specs.Prelude.{◌≡◌, ◌||◌, List, IfOk};
ghost use Rattle.vl_tree.specs.Expr as tree;
ghost use Rattle.vl_tree.specs.Expr.{exprs};
ghost use Rattle.vl_tree.specs.ExprView.{selects};
ghost use Rattle.vl_elab_spec.specs.Expressions as expressions;
ghost use Rattle.vl_elab_spec.specs.Meanings.{meaning_in};
ghost use Rattle.vl_elab_spec.specs.Meanings as meanings;
ghost use Rattle.vl_elab_spec.specs.Refused.{lower_of, lowest};
ghost use Rattle.vl_elab_check_expr.specs.Judged as spec;
ghost use Rattle.vl_elab_scope.specs.Seen.{seen};

use crate::fault::{first_of, range_if, too_wide};
use crate::selects::{lacks_copies, read_fault};
use crate::width::{binary_width, copies_width, larger, name_width, plus, some_bits, unary_width};
use fv_text::{Memory, Pos, Text};
use std::alloc::Global;
use vl_elab_scope::{Meaning, Names};
use vl_elab_spec::ElabFault;
use vl_size::way::divides;
use vl_tree::{Expr, ExprKind, Select};

/// What is found in an expression: its size without a limit, and which of its refusals is answered.
#[derive(Drop)]
pub struct Judged {
    pub width: Option<u64>,
    pub fault: Option<ElabFault>,
}

pub fn closed(pos: Pos, width: Option<u64>, inner: Option<ElabFault>) -> Judged
    ensures width { result.width ≡ width }
    ensures fault { result.fault ≡ lower_of inner (lowest (expressions.too_wide pos width)) }
{
    Judged {
        width,
        fault: first_of(inner, too_wide(pos, width)),
    }
}

/// The expression; whether it has to be constant.
#[cycle(judge)]
#[tactic(auto, using(vl_tree::specs::ExprFalls::parts_fall))]
pub(crate) fn judge(
    alloc: Global,
    expr: &Expr,
    fixed: bool,
    names: &Names,
) -> Result<Judged, Memory>
    ensures width { IfOk result (λ j. j.width ≡ expressions.wide_size names.now expr.now) }
    ensures fault { IfOk result (λ j. j.fault ≡ spec.fault names.now fixed expr.now) }
{
    match &expr.kind {
        ExprKind::Number(number) => Ok(Judged {
            width: Some(u64::from(number.width)),
            fault: None,
        }),
        ExprKind::Name(text, all) => judge_name(
            alloc,
            expr.pos,
            text,
            all.as_slice(),
            fixed,
            names,
        ),
        ExprKind::Paren(inner) | ExprKind::Cast(_, inner) => {
            let found = judge(alloc, inner, fixed, names)?;
            Ok(closed(expr.pos, found.width, found.fault))
        }
        ExprKind::Unary(operator, operand) => {
            let found = judge(alloc, operand, fixed, names)?;
            Ok(closed(expr.pos, unary_width(*operator, found.width), found.fault))
        }
        ExprKind::Binary(operator, left, right) => {
            let fixed = either(fixed, divides(*operator));
            let l = judge(alloc, left, fixed, names)?;
            let r = judge_behind(alloc, l.fault, right, fixed, names)?;
            Ok(closed(expr.pos, binary_width(*operator, l.width, r.width), r.fault))
        }
        ExprKind::Conditional(condition, first, second) => {
            let tested = judge(alloc, condition, fixed, names)?;
            let m = judge_behind(alloc, tested.fault, first, fixed, names)?;
            let n = judge_behind(alloc, m.fault, second, fixed, names)?;
            Ok(closed(expr.pos, larger(m.width, n.width), n.fault))
        }
        ExprKind::Concat(parts) => {
            let found = judge_parts(alloc, parts.as_slice(), fixed, names)?;
            Ok(closed(expr.pos, some_bits(found.width), found.fault))
        }
        ExprKind::Repeat(count, parts) => {
            let counted = judge(alloc, count, true, names)?;
            let found = judge_parts_behind(alloc, counted.fault, parts.as_slice(), fixed, names)?;
            repeated(
                alloc,
                expr.pos,
                count,
                some_bits(found.width),
                found.fault,
                names,
            )
        }
    }
}

/// An expression behind others with such a refusal.
#[cycle(judge)]
fn judge_behind(
    alloc: Global,
    before: Option<ElabFault>,
    expr: &Expr,
    fixed: bool,
    names: &Names,
) -> Result<Judged, Memory>
    ensures width { IfOk result (λ j. j.width ≡ expressions.wide_size names.now expr.now) }
    ensures fault { IfOk result (λ j. j.fault ≡ lower_of before (spec.fault names.now fixed expr.now)) }
{
    let found = judge(alloc, expr, fixed, names)?;
    Ok(Judged {
        width: found.width,
        fault: first_of(before, found.fault),
    })
}

/// The same of several.
#[cycle(judge)]
fn judge_parts_behind(
    alloc: Global,
    before: Option<ElabFault>,
    all: &[Expr],
    fixed: bool,
    names: &Names,
) -> Result<Judged, Memory>
    ensures width { IfOk result (λ j. j.width ≡ expressions.wide_sizes names.now (exprs all.now)) }
    ensures fault { IfOk result (λ j. j.fault ≡ lower_of before (spec.faults names.now fixed (exprs all.now))) }
{
    let found = judge_parts(alloc, all, fixed, names)?;
    Ok(Judged {
        width: found.width,
        fault: first_of(before, found.fault),
    })
}

/// So many copies of a size, with such a refusal of the parts.
fn repeated(
    alloc: Global,
    pos: Pos,
    count: &Expr,
    size: Option<u64>,
    inner: Option<ElabFault>,
    names: &Names,
) -> Result<Judged, Memory>
    ensures width { IfOk result (λ j. j.width ≡ spec.copied names.now count.now size) }
    ensures fault { IfOk result (λ j. j.fault
        ≡ lower_of (lower_of inner (lowest (expressions.no_copies names.now pos count.now)))
        (lowest (expressions.too_wide pos (spec.copied names.now count.now size)))) }
{
    let lacks = lacks_copies(alloc, count, names)?;
    let width = copies_width(alloc, count, size, names)?;
    Ok(closed(pos, width, first_of(inner, range_if(lacks, pos))))
}

#[cycle(judge)]
#[tactic(auto, using(crate::proofs::Lowest::judged))]
fn judge_parts(alloc: Global, all: &[Expr], fixed: bool, names: &Names) -> Result<Judged, Memory>
    ensures width { IfOk result (λ j. j.width ≡ expressions.wide_sizes names.now (exprs all.now)) }
    ensures fault { IfOk result (λ j. j.fault ≡ spec.faults names.now fixed (exprs all.now)) }
{
    let mut width = Some(0);
    let mut fault = None;
    let mut place = all.len();
    while place > 0 {
        place -= 1;
        let found = judge(alloc, &all[place], fixed, names)?;
        width = plus(found.width, width);
        fault = first_of(found.fault, fault);
    }
    Ok(Judged { width, fault })
}

/// Bounds and counts have to be constant.
#[cycle(judge)]
#[tactic(auto, using(crate::proofs::Lowest::judged))]
pub fn judge_selects(
    alloc: Global,
    all: &[Select],
    fixed: bool,
    names: &Names,
) -> Result<Option<ElabFault>, Memory>
    ensures { IfOk result (λ g. g ≡ spec.selects_fault names.now fixed (selects all.now)) }
{
    let mut fault = None;
    let mut place = all.len();
    while place > 0 {
        place -= 1;
        fault = first_of(judge_select(alloc, &all[place], fixed, names)?, fault);
    }
    Ok(fault)
}

#[cycle(judge)]
fn judge_select(
    alloc: Global,
    select: &Select,
    fixed: bool,
    names: &Names,
) -> Result<Option<ElabFault>, Memory>
    ensures { IfOk result (λ g. g ≡ spec.select_fault names.now fixed select.now) }
{
    match select {
        Select::Bit(_, index) => {
            let found = judge(alloc, index, fixed, names)?;
            Ok(found.fault)
        }
        Select::Part(_, left, right) => {
            let l = judge(alloc, left, true, names)?;
            let r = judge_behind(alloc, l.fault, right, true, names)?;
            Ok(r.fault)
        }
        Select::Indexed(_, start, count) => {
            let s = judge(alloc, start, fixed, names)?;
            let n = judge_behind(alloc, s.fault, count, true, names)?;
            Ok(n.fault)
        }
    }
}

/// A name with its selects. A constant is selected from by constants.
#[cycle(judge)]
fn judge_name(
    alloc: Global,
    pos: Pos,
    text: &Text,
    all: &[Select],
    fixed: bool,
    names: &Names,
) -> Result<Judged, Memory>
    ensures width { IfOk result (λ j. j.width ≡ expressions.name_width names.now text.now
        (meaning_in names.now text.now) (selects all.now)) }
    ensures fault { IfOk result (λ j. j.fault
        ≡ spec.fault names.now fixed (tree.name pos text.now (selects all.now))) }
{
    match names.meaning(text) {
        None => {
            let unknown = text.copied(alloc)?;
            let inner = judge_selects(alloc, all, fixed, names)?;
            Ok(closed(
                pos,
                None,
                first_of(inner, Some(ElabFault::Unknown(unknown, pos))),
            ))
        }
        Some(meaning) => {
            let width = name_width(alloc, text, meaning, all, names)?;
            let inner = judge_selects(alloc, all, either(fixed, is_constant(meaning)), names)?;
            let own = read_fault(alloc, fixed, pos, text, meaning, all, names)?;
            Ok(closed(pos, width, first_of(inner, own)))
        }
    }
}

pub fn either(first: bool, second: bool) -> bool
    ensures { result ≡ (first || second) }
{
    first || second
}

pub fn is_constant(meaning: &Meaning) -> bool
    ensures { (ns : List meanings.Names) → result ≡ expressions.is_constant_name ns (seen meaning.now) }
{
    matches!(meaning, Meaning::Constant(_, _))
}
