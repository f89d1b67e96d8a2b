//! The size and the sign that the expression of a case and its labels have (IEEE 1364-2005, section 9.5).
#![tactic(auto)]

ghost use Rattle.std.specs.Prelude.{◌≡◌, ◌&&◌, max, IsSome, IfOk};
ghost use Rattle.vl_tree.specs.Stmt.{Arms};
ghost use Rattle.vl_tree.specs.StmtView.{arms, with_arm};
ghost use Rattle.vl_tree.specs.Stmt as s;
ghost use Rattle.vl_size.specs.Sign.{sign};
ghost use Rattle.vl_size.specs.Size.{or_none, size};
ghost use Rattle.vl_mean.specs.Execution.{arms_sign, arms_size, labels_sign, labels_size};
ghost use Rattle.vl_mean.specs.FlatLaw.{flat_scopes};
ghost use Rattle.vl_mean.specs.Scopes.{operand_in};
ghost use Rattle.vl_lower_assign.specs.Frames.{AreCellsOf};
ghost use Rattle.vl_lower_stmt.specs.StepsArms.{AreLedTo, AreSized};
ghost use Rattle.vl_lower_stmt.specs.Executes.{Evaluates};
ghost use Rattle.vl_lower_stmt.specs.Layout.{IsLayout};

use crate::labels::CaseWord;
use crate::layout::Layout;
use crate::value::number_in;
use fv_text::Memory;
use vl_lower_expr::WordType;
use vl_size::{Decls, self_size, sign_of};
use vl_tree::{Arm, CaseKind, Expr};
use wn_net::{Net, NodeId};

/// The size and the sign that an expression has by itself.
fn own_type(decls: &Decls, expr: &Expr) -> WordType
    requires { IsSome (size decls.now expr.now) }
    ensures width { result.width ≡ or_none (size decls.now expr.now) }
    ensures signed { result.signed ≡ sign decls.now expr.now }
{
    let Some(width) = self_size(expr, decls) else {
        unreachable!()
    };
    WordType {
        width,
        signed: sign_of(expr, decls),
    }
}

/// The larger size, signed where both are.
fn common(context: WordType, own: WordType) -> WordType
    ensures width { result.width ≡ max context.width own.width }
    ensures signed { result.signed ≡ (context.signed && own.signed) }
{
    WordType {
        width: context.width.max(own.width),
        signed: context.signed && own.signed,
    }
}

/// A context that the labels have too.
fn with_labels(decls: &Decls, context: WordType, labels: &[Expr]) -> WordType
    requires { AreSized decls.now labels.now }
    ensures width { result.width ≡ max context.width (labels_size (flat_scopes decls.now) labels.now) }
    ensures signed { result.signed ≡ (context.signed && labels_sign (flat_scopes decls.now) labels.now) }
{
    let mut all = context;
    for label in labels {
        all = common(all, own_type(decls, label));
    }
    all
}

/// A context that the labels of the arm have too.
fn wider(decls: &Decls, context: WordType, arm: &Arm) -> WordType
    requires { AreLedTo decls.now (with_arm arm.now s.no_arms) }
    ensures width { (rest : Arms) → max result.width (arms_size (flat_scopes decls.now) rest)
        ≡ max context.width (arms_size (flat_scopes decls.now) (with_arm arm.now rest)) }
    ensures signed { (rest : Arms) → (result.signed && arms_sign (flat_scopes decls.now) rest)
        ≡ (context.signed && arms_sign (flat_scopes decls.now) (with_arm arm.now rest)) }
{
    match arm {
        Arm::Labels(_, labels, _) => with_labels(decls, context, labels.as_slice()),
        Arm::Default(_, _, _) => context,
    }
}

/// The size and the sign of a case: those of its expression and its labels, the largest size, signed where all are.
fn case_context(decls: &Decls, expr: &Expr, all: &[Arm]) -> WordType
    requires sized { IsSome (size decls.now expr.now) }
    requires arms { AreLedTo decls.now (arms all.now) }
    ensures width { result.width
        ≡ max (or_none (size decls.now expr.now)) (arms_size (flat_scopes decls.now) (arms all.now)) }
    ensures signed { result.signed ≡ (sign decls.now expr.now && arms_sign (flat_scopes decls.now) (arms all.now)) }
{
    let mut context = own_type(decls, expr);
    for arm in all {
        context = wider(decls, context, arm);
    }
    context
}

/// The expression of a case in the context that it and its labels have.
pub(crate) fn case_word(
    net: &mut Net,
    layout: Layout<'_>,
    cells: &[NodeId],
    kind: CaseKind,
    expr: &Expr,
    all: &[Arm],
) -> Result<CaseWord, Memory>
    requires layout { IsLayout layout.decls.now layout.places.now }
    requires cells { AreCellsOf net.old layout.decls.now cells.now }
    requires sized { IsSome (size layout.decls.now expr.now) }
    requires arms { AreLedTo layout.decls.now (arms all.now) }
    ensures kind { IfOk result (λ word. word.kind ≡ kind) }
    ensures width { IfOk result (λ word. word.context.width ≡ max (or_none (size layout.entry.decls.now expr.now))
        (arms_size (flat_scopes layout.entry.decls.now) (arms all.now))) }
    ensures signed { IfOk result (λ word. word.context.signed ≡ (sign layout.entry.decls.now expr.now
        && arms_sign (flat_scopes layout.entry.decls.now) (arms all.now))) }
    ensures node { IfOk result (λ word. Evaluates layout.entry.decls.now net.old net.new cells.now word.context.width
        (λ v. (operand_in (flat_scopes layout.entry.decls.now) v expr.now).at word.context.width word.context.signed)
        word.node) }
{
    let context = case_context(layout.decls, expr, all);
    let node = number_in(net, layout, cells, expr, context)?;
    Ok(CaseWord {
        kind,
        context,
        node,
    })
}
