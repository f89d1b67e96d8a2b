//! That a design has the registers of the modules that it is drawn from.
ghost use Rattle.std.specs.Prelude.{◌≡◌, ℕ, List, All};
ghost use Rattle.vl_tree.specs.WellFormed.{IsModule};
ghost use Rattle.vl_tree.specs.declared.source.Module.{Module};
ghost use Rattle.vl_mean.specs.declared.flat.Flat.{Flat};
ghost use Rattle.vl_mean.specs.FlatParts.{flat_parts};
ghost use Rattle.vl_mean.specs.Parts.{design};
ghost use Rattle.vl_elab_spec.specs.Refused.{state_bits};
ghost use Rattle.vl_elab_accepted_laws.specs.Unrefused.{NoStepRefused};
ghost use Rattle.vl_elab_draft.specs.Drawn.{IsDrawn};

/// Where well formed modules are a design with this top module, what is drawn from its parts has as many bits of
/// variables that no combinational block assigns.
#[tactic(auto, using(crate::proofs::Drawn::drawn_bits))]
pub fn a_drawn_design_has_the_same_bits()
    ensures { (ms : List Module) (top : List ℕ) (f : Flat) → All IsModule ms → NoStepRefused ms top
        → IsDrawn (design ms top) f
        → state_bits (flat_parts f) (flat_parts f) ≡ state_bits (design ms top) (design ms top) }
{}
