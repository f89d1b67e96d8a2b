//! That in a design which isn't refused no name is one whose own declaration is refused.
ghost use Rattle.std.specs.Prelude.{ℕ, List, All};
ghost use Rattle.vl_tree.specs.WellFormed.{IsModule};
ghost use Rattle.vl_tree.specs.declared.source.Module.{Module};
ghost use Rattle.vl_mean.specs.Runs.{Each};
ghost use Rattle.vl_mean.specs.Walk.{walk};
ghost use Rattle.vl_elab_accepted_laws.specs.Unrefused.{NoStepRefused};
ghost use Rattle.vl_elab_accepted_laws.specs.SoundSteps.{HasSoundNames, HasSoundBounds, HasOwnInput, IsFormedStep};

/// Where no step of the walk through well formed modules is refused, in each step of the walk through it no name is one
/// whose own declaration is refused; what is known to be a constant there is the same constant where the bounds of its
/// declarations are read; an input of an instance's module is a net, or the clock where it is joined to it; and what
/// the step is made from is well formed.
#[tactic(auto, using(crate::proofs::SoundWalked::walked))]
pub fn names_are_sound()
    ensures sound { (ms : List Module) (top : List ℕ) → All IsModule ms → NoStepRefused ms top
        → Each HasSoundNames (walk ms top) }
    ensures bounds { (ms : List Module) (top : List ℕ) → All IsModule ms → NoStepRefused ms top
        → Each HasSoundBounds (walk ms top) }
    ensures inputs { (ms : List Module) (top : List ℕ) → All IsModule ms → NoStepRefused ms top
        → Each HasOwnInput (walk ms top) }
    ensures formed { (ms : List Module) (top : List ℕ) → All IsModule ms → NoStepRefused ms top
        → Each IsFormedStep (walk ms top) }
{}
