//! That full names have neither a blank nor a control byte in them.
ghost use Rattle.std.specs.Prelude.{◌≡◌, ℕ, List, All, true};
ghost use Rattle.vl_tree.specs.WellFormed.{IsModule};
ghost use Rattle.vl_tree.specs.declared.source.Module.{Module};
ghost use Rattle.vl_mean.specs.FlatLaw.{is_graphic};
ghost use Rattle.vl_mean.specs.Parts.{design};
ghost use Rattle.vl_mean_flat.specs.Flattened.{decls_of};
ghost use Rattle.vl_elab_accepted_laws.specs.Unrefused.{NoStepRefused};

/// Where no step of the walk through well formed modules is refused, each byte of each full name is graphic.
#[tactic(auto, using(crate::proofs::Printed::design_printed))]
pub fn full_names_are_graphic()
    ensures { (ms : List Module) (top : List ℕ) → All IsModule ms → NoStepRefused ms top
        → All (λ d. All (λ c. is_graphic c ≡ true) d.name) (decls_of (design ms top)) }
{}
