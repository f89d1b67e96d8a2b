//! That the scopes of a design which isn't refused can be opened.
ghost use Rattle.std.specs.Prelude.{ℕ, List, All};
ghost use Rattle.vl_tree.specs.WellFormed.{IsModule};
ghost use Rattle.vl_tree.specs.declared.source.Module.{Module};
ghost use Rattle.vl_mean.specs.Runs.{Each};
ghost use Rattle.vl_mean.specs.Walk.{walk};
ghost use Rattle.vl_mean_flat.specs.StepScopes.{StepScopes};
ghost use Rattle.vl_elab_const.specs.Openable.{AreOpenable};
ghost use Rattle.vl_elab_accepted_laws.specs.Unrefused.{NoStepRefused};

/// Where no step of the walk through well formed modules is refused, each scope of each step of the walk through it can
/// be opened: the names of its constants differ, and those of its nets and variables, which have no bracket in them and
/// are in range.
pub fn scopes_can_be_opened()
    ensures { (ms : List Module) (top : List ℕ) → All IsModule ms → NoStepRefused ms top
        → Each (StepScopes AreOpenable) (walk ms top) }
{}
