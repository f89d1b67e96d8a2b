//! That names of what isn't refused are constants or declared.
ghost use Rattle.std.specs.Prelude.{◌≡◌, ℕ, List, [], Bool};
ghost use Rattle.vl_tree.specs.Expr.{Expr};
ghost use Rattle.vl_tree.specs.ExprWellFormed as expr;
ghost use Rattle.vl_tree.specs.Lval.{Lval};
ghost use Rattle.vl_tree.specs.LvalWellFormed as lval;
ghost use Rattle.vl_tree.specs.Stmt.{Stmt};
ghost use Rattle.vl_tree.specs.StmtWellFormed as stmt;
ghost use Rattle.vl_size.specs.declared.context.Context.{Context};
ghost use Rattle.vl_mean.specs.Scopes.{Scope};
ghost use Rattle.vl_mean_flat.specs.Flattened.{IsSeen};
ghost use Rattle.vl_mean_flat.specs.Names.{ExprNames, TargetNames, StmtNames};
ghost use Rattle.vl_elab_spec.specs.Expressions.{expr_refusals};
ghost use Rattle.vl_elab_spec.specs.Meanings.{Names};
ghost use Rattle.vl_elab_spec.specs.Statements.{target_refusals, stmt_refusals};
ghost use Rattle.vl_elab_scope.specs.Seen.{AllNamed};
ghost use Rattle.vl_elab_accepted_laws.specs.Means.{AreMeant};

/// Where an expression isn't refused, each name in it is a constant or declared.
#[tactic(auto, using(crate::proofs::Knowing::known_expr))]
pub fn expressions_are_known()
    ensures { (ns : List Names) (ss : List Scope) (fixed : Bool) (c : Context) (e : Expr) → AllNamed ns
        → AreMeant ns ss → expr.IsWellFormed e → expr_refusals ns fixed c e ≡ [] → ExprNames (IsSeen ss) ss e }
{}

/// Where a target isn't refused, each name in it is a constant or declared, and what is assigned is no constant.
#[tactic(auto, using(crate::proofs::Knowing::known_target))]
pub fn targets_are_known()
    ensures { (ns : List Names) (ss : List Scope) (continuous fixed : Bool) (l : Lval) → AllNamed ns
        → AreMeant ns ss → lval.IsWellFormed l → target_refusals ns continuous fixed l ≡ []
        → TargetNames (IsSeen ss) ss l }
{}

/// The same of a statement.
#[tactic(auto, using(crate::proofs::Knowing::known_stmt))]
pub fn statements_are_known()
    ensures { (ns : List Names) (ss : List Scope) (s : Stmt) → AllNamed ns → AreMeant ns ss → stmt.IsWellFormed s
        → stmt_refusals ns s ≡ [] → StmtNames (IsSeen ss) ss s }
{}
