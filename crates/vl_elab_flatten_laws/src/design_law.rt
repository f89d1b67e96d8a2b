//! That a design which isn't refused has the maps of its form without hierarchy.
ghost use Rattle.std.specs.Prelude.{ℕ, List, All};
ghost use Rattle.vl_tree.specs.WellFormed.{IsModule};
ghost use Rattle.vl_tree.specs.declared.source.Module.{Module};
ghost use Rattle.vl_mean.specs.FlatParts.{flat_parts};
ghost use Rattle.vl_mean.specs.Parts.{design};
ghost use Rattle.vl_mean.specs.Runs.{Each};
ghost use Rattle.vl_mean.specs.declared.flat.Flat.{Flat};
ghost use Rattle.vl_mean_flat.specs.Flattened.{Known};
ghost use Rattle.vl_mean_flat.specs.SameMaps.{AreSameMaps};
ghost use Rattle.vl_elab_accepted_laws.specs.Unrefused.{NoStepRefused};
ghost use Rattle.vl_elab_draft.specs.Drawn.{IsDrawn};

/// Where no step of the walk through well formed modules is refused, each name in its parts is a constant or declared,
/// what is assigned is no constant, and what begins with a value has 1 to 128 bits.
#[tactic(auto, using(crate::proofs::DesignSteps::all_known))]
pub fn a_design_is_known()
    ensures { (ms : List Module) (top : List ℕ) → All IsModule ms → NoStepRefused ms top
        → Each Known (design ms top) }
{}

/// A design without hierarchy whose declarations, drivers and values at first are those of such a design's parts, each
/// in order, has its maps: the same maps hold, make the same choice, step, begin, are runs and are assumed.
#[tactic(auto, using(crate::proofs::DesignSteps::design_maps))]
pub fn a_drawn_design_has_the_same_maps()
    ensures { (ms : List Module) (top : List ℕ) (f : Flat) → All IsModule ms → NoStepRefused ms top
        → IsDrawn (design ms top) f → AreSameMaps (design ms top) (flat_parts f) }
{}
