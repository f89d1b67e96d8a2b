//! The sizes and signs that expressions have in assignments and cases.
ghost use Rattle.std.specs.Prelude.{◌≡◌, ◌≤◌, ◌&&◌, true, Some, IfOk, IfSome};
ghost use Rattle.vl_tree.specs.Stmt as tree;
ghost use Rattle.vl_tree.specs.StmtView.{arms, with_arm};
ghost use Rattle.vl_size.specs.Divisors as divisors;
ghost use Rattle.vl_elab_spec.specs.Statements as spec;

use fv_text::Memory;
use std::alloc::Global;
use vl_elab_scope::{Names, context_of};
use vl_size::Context;
use vl_tree::{Arm, Expr};

fn widened(width: Option<u64>, own: Option<u32>) -> Option<u32>
    requires { IfSome own (λ w. w ≤ 128) }
    ensures value { result ≡ spec.widened width own }
    ensures few { IfSome result (λ w. w ≤ 128) }
{
    let width = width?;
    if width > 128 {
        return own;
    }
    let own = own?;
    Some((width as u32).max(own))
}

/// What an expression has that is assigned to so many bits: the larger of both sizes, and its own sign. More than 128
/// bits are refused at the target, and don't count.
pub fn assigned_in(
    alloc: Global,
    width: Option<u64>,
    expr: &Expr,
    names: &Names,
) -> Result<Context, Memory>
    ensures value { IfOk result (λ c. c ≡ spec.assigned_in names.now width expr.now) }
    ensures few { IfOk result (λ c. IfSome c.size (λ w. w ≤ 128)) }
{
    let own = context_of(alloc, expr, names)?;
    Ok(Context {
        size: widened(width, own.size),
        signed: own.signed,
    })
}

/// The larger of two sizes that are there.
fn larger(m: Option<u32>, n: Option<u32>) -> Option<u32>
    requires left { IfSome m (λ w. w ≤ 128) }
    requires right { IfSome n (λ w. w ≤ 128) }
    ensures value { result ≡ divisors.larger m n }
    ensures few { IfSome result (λ w. w ≤ 128) }
{
    let m = m?;
    let n = n?;
    Some(m.max(n))
}

fn both(first: bool, second: bool) -> bool
    ensures { result ≡ (first && second) }
{
    first && second
}

/// A case with one label more, or with its expression.
fn with_label(
    alloc: Global,
    context: Context,
    label: &Expr,
    names: &Names,
) -> Result<Context, Memory>
    requires { IfSome context.size (λ w. w ≤ 128) }
    ensures value { IfOk result (λ c. c ≡ spec.with_label names.now context label.now) }
    ensures few { IfOk result (λ c. IfSome c.size (λ w. w ≤ 128)) }
{
    let own = context_of(alloc, label, names)?;
    Ok(Context {
        size: larger(context.size, own.size),
        signed: both(context.signed, own.signed),
    })
}

fn with_labels(
    alloc: Global,
    context: Context,
    all: &[Expr],
    names: &Names,
) -> Result<Context, Memory>
    requires { IfSome context.size (λ w. w ≤ 128) }
    ensures value { IfOk result (λ c. c ≡ spec.with_labels names.now context all.now) }
    ensures few { IfOk result (λ c. IfSome c.size (λ w. w ≤ 128)) }
{
    let mut whole = context;
    for label in all {
        whole = with_label(alloc, whole, label, names)?;
    }
    Ok(whole)
}

fn with_arm_labels(
    alloc: Global,
    context: Context,
    arm: &Arm,
    names: &Names,
) -> Result<Context, Memory>
    requires { IfSome context.size (λ w. w ≤ 128) }
    ensures value { IfOk result (λ c. (rest : tree.Arms) →
        spec.case_context names.now context (with_arm arm.now rest) ≡ spec.case_context names.now c rest) }
    ensures few { IfOk result (λ c. IfSome c.size (λ w. w ≤ 128)) }
{
    match arm {
        Arm::Labels(_, labels, _) => with_labels(alloc, context, labels.as_slice(), names),
        Arm::Default(_, _, _) => Ok(context),
    }
}

/// The same with the labels of all arms.
#[tactic(auto, using(crate::proofs::Cases::steps))]
fn with_arms(alloc: Global, context: Context, all: &[Arm], names: &Names) -> Result<Context, Memory>
    requires { IfSome context.size (λ w. w ≤ 128) }
    ensures value { IfOk result (λ c. c ≡ spec.case_context names.now context (arms all.now)) }
    ensures few { IfOk result (λ c. IfSome c.size (λ w. w ≤ 128)) }
{
    let mut whole = context;
    for arm in all {
        whole = with_arm_labels(alloc, whole, arm, names)?;
    }
    Ok(whole)
}

/// What the expression of a case and all its labels have: the largest of their sizes, and signed where all are.
pub(crate) fn case_context(
    alloc: Global,
    expr: &Expr,
    all: &[Arm],
    names: &Names,
) -> Result<Context, Memory>
    ensures value { IfOk result (λ c. c ≡ spec.case_context names.now
        (spec.with_label names.now (record { size = Some 0; signed = true }) expr.now) (arms all.now)) }
    ensures few { IfOk result (λ c. IfSome c.size (λ w. w ≤ 128)) }
{
    let none = Context {
        size: Some(0),
        signed: true,
    };
    let first = with_label(alloc, none, expr, names)?;
    with_arms(alloc, first, all, names)
}
