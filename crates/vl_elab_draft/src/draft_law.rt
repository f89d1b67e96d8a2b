//! What a written design means.
ghost use Rattle.std.specs.Prelude.{◌≡◌, ℕ, List, map};
ghost use Rattle.vl_tree.specs.declared.source.Module.{Module};
ghost use Rattle.vl_size.specs.Table.{AreDifferent};
ghost use Rattle.vl_mean.specs.declared.flat.Flat.{Flat};
ghost use Rattle.vl_mean.specs.FlatParts.{flat_parts};
ghost use Rattle.vl_mean.specs.Parts.{design};
ghost use Rattle.vl_mean.specs.Runs.{Each};
ghost use Rattle.vl_mean_flat.specs.Flattened.{decls_of, Known};
ghost use Rattle.vl_mean_flat.specs.SameMaps.{AreSameMaps};
ghost use Rattle.vl_elab_draft.specs.Drawn.{IsDrawn};

/// A design without hierarchy whose declarations, drivers and values at first are those of a design's parts, each in
/// order, has the maps of that design: where the full names of the design differ, and each name in it is a constant or
/// declared.
#[tactic(auto, using(crate::proofs::Drawing::same_maps))]
pub fn a_written_design_has_the_same_maps()
    ensures { (ms : List Module) (top : List ℕ) (f : Flat) → AreDifferent (decls_of (design ms top))
        → Each Known (design ms top) → IsDrawn (design ms top) f → AreSameMaps (design ms top) (flat_parts f) }
{}
