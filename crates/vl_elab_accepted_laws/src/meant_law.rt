//! That names mean in each step of a walk what they stand for in its scopes.
ghost use Rattle.std.specs.Prelude.{ℕ, List};
ghost use Rattle.vl_tree.specs.declared.source.Module.{Module};
ghost use Rattle.vl_mean.specs.Runs.{Each};
ghost use Rattle.vl_mean.specs.Walk.{walk};
ghost use Rattle.vl_elab_accepted_laws.specs.Right.{IsRight};

/// In each step of the walk through a design, where no name is one whose own declaration is refused, a name means while
/// it is judged what it stands for in the scopes of the step.
#[tactic(auto, using(crate::proofs::MeantWalked::walk_is_right))]
pub fn names_mean_what_they_stand_for()
    ensures { (ms : List Module) (top : List ℕ) → Each IsRight (walk ms top) }
{}
