//! That an expression which isn't refused has a size.
ghost use Rattle.std.specs.Prelude.{◌≡◌, ℕ, List, [], Bool};
ghost use Rattle.vl_tree.specs.Expr.{Expr};
ghost use Rattle.vl_tree.specs.ExprWellFormed.{IsWellFormed};
ghost use Rattle.vl_size.specs.declared.context.Context.{Context};
ghost use Rattle.vl_elab_spec.specs.Expressions.{expr_refusals};
ghost use Rattle.vl_elab_spec.specs.Meanings.{Names};
ghost use Rattle.vl_elab_scope.specs.Seen.{AllNamed};
ghost use Rattle.vl_elab_accepted_laws.specs.Sized.{AreSound, IsSized};

/// An expression that isn't refused in a context has a size of 1 to 128 bits, each name in it is that of a net or a
/// variable, and it is a constant where one is demanded.
#[tactic(auto, using(crate::proofs::Sizes::read))]
pub fn expressions_have_sizes()
    ensures { (ns : List Names) (fixed : Bool) (c : Context) (e : Expr) → AllNamed ns → AreSound ns
        → IsWellFormed e → expr_refusals ns fixed c e ≡ [] → IsSized ns fixed e }
{}
