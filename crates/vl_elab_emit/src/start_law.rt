//! That what isn't refused as a value at first may be written so.
ghost use Rattle.std.specs.Prelude.{◌≡◌, List, [], true, false};
ghost use Rattle.vl_tree.specs.Expr.{Expr};
ghost use Rattle.vl_tree.specs.ExprWellFormed as exprs;
ghost use Rattle.vl_tree.specs.Lval.{Lval};
ghost use Rattle.vl_tree.specs.LvalWellFormed as lvals;
ghost use Rattle.vl_mean.specs.Scopes.{Scope};
ghost use Rattle.vl_elab_spec.specs.Meanings.{Names};
ghost use Rattle.vl_elab_spec.specs.Statements.{assignment_refusals};
ghost use Rattle.vl_elab_accepted_laws.specs.Sized.{AreSound};
ghost use Rattle.vl_elab_accepted_laws.specs.Right.{AreRight};
ghost use Rattle.vl_elab_emit.specs.Starts.{IsStart};

/// Where a value at first isn't refused, and names mean what they stand for, the target's indices and the value are
/// constant.
#[tactic(auto, using(crate::proofs::Refusing::starts))]
pub fn starts_are_constant()
    ensures { (ns : List Names) (ss : List Scope) (l : Lval) (e : Expr) → AreRight ns ss → AreSound ns
        → lvals.IsWellFormed l → exprs.IsWellFormed e → assignment_refusals ns false true true l e ≡ []
        → IsStart ss l e }
{}
