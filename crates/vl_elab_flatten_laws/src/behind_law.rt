//! That the parts of a design which isn't refused may be written.
ghost use Rattle.std.specs.Prelude.{ℕ, List, All};
ghost use Rattle.vl_tree.specs.WellFormed.{IsModule};
ghost use Rattle.vl_tree.specs.declared.source.Module.{Module};
ghost use Rattle.vl_mean.specs.Parts.{design};
ghost use Rattle.vl_elab_accepted_laws.specs.Unrefused.{NoStepRefused};
ghost use Rattle.vl_elab_draft.specs.Written.{nothing};
ghost use Rattle.vl_elab_emit.specs.Behind.{MayStandBehind};

/// Where no step of the walk through well formed modules is refused, its parts may be written where nothing is yet:
/// full names differ and are none of a memory's word, shapes are in range, and what begins with a value may.
pub fn a_design_may_be_written()
    ensures { (ms : List Module) (top : List ℕ) → All IsModule ms → NoStepRefused ms top
        → MayStandBehind nothing (design ms top) }
{}
