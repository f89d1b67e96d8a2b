//! That the values at first of a design which isn't refused may be written.
ghost use Rattle.std.specs.Prelude.{ℕ, List, All};
ghost use Rattle.vl_tree.specs.WellFormed.{IsModule};
ghost use Rattle.vl_tree.specs.declared.source.Module.{Module};
ghost use Rattle.vl_mean.specs.Parts.{design};
ghost use Rattle.vl_mean.specs.Runs.{Each};
ghost use Rattle.vl_elab_accepted_laws.specs.Unrefused.{NoStepRefused};
ghost use Rattle.vl_elab_emit.specs.Begins.{Begins};

/// Where no step of the walk through well formed modules is refused, the targets of its values at first have constant
/// indices, and the values are constant.
#[tactic(auto, using(crate::proofs::Begun::all_begin))]
pub fn a_design_begins()
    ensures { (ms : List Module) (top : List ℕ) → All IsModule ms → NoStepRefused ms top
        → Each Begins (design ms top) }
{}
