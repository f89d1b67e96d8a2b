//! That in a design of which no judged step is refused each step is judged.
ghost use Rattle.std.specs.Prelude.{◌≡◌, ℕ, List, All};
ghost use Rattle.vl_tree.specs.WellFormed.{IsModule};
ghost use Rattle.vl_tree.specs.declared.source.Module.{Module};
ghost use Rattle.vl_mean.specs.Walk.{walk};
ghost use Rattle.vl_elab_spec.specs.Refused.{judged_walk};
ghost use Rattle.vl_elab_accepted_laws.specs.Unrefused.{NoneRefused};

/// Where no judged step of the walk through well formed modules is refused, each condition of an `if` and each head of
/// a loop has values, so that the judged steps are all steps of the walk.
#[tactic(auto, using(crate::proofs::JudgedWalked::all_judged))]
pub fn each_step_is_judged()
    ensures { (ms : List Module) (top : List ℕ) → All IsModule ms → NoneRefused ms top
        → judged_walk ms top ≡ walk ms top }
{}
