//! That the full names of a design differ.
ghost use Rattle.std.specs.Prelude.{ℕ, List, All};
ghost use Rattle.vl_mean.specs.Parts.{design};
ghost use Rattle.vl_elab_accepted_laws.specs.Unrefused.{NoStepRefused};
ghost use Rattle.vl_mean_flat.specs.Flattened.{decls_of};
ghost use Rattle.vl_size.specs.Table.{AreDifferent};
ghost use Rattle.vl_tree.specs.WellFormed.{IsModule};
ghost use Rattle.vl_tree.specs.declared.source.Module.{Module};

/// Where no step of the walk through well formed modules is refused, the full names of all declarations differ.
#[tactic(auto, using(crate::proofs::Names::names_differ))]
pub fn full_names_differ()
    ensures { (ms : List Module) (top : List ℕ) → All IsModule ms → NoStepRefused ms top
        → AreDifferent (decls_of (design ms top)) }
{}
