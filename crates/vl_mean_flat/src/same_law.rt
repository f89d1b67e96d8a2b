//! That a design without hierarchy has the maps of the design that it comes from.
ghost use Rattle.std.specs.Prelude.{ℕ, List};
ghost use Rattle.vl_mean.specs.Parts.{design};
ghost use Rattle.vl_mean.specs.Runs.{Each};
ghost use Rattle.vl_mean_flat.specs.Flattened.{decls_of, flattened, Known};
ghost use Rattle.vl_mean_flat.specs.SameMaps.{AreSameMaps};
ghost use Rattle.vl_size.specs.Table.{AreDifferent};
ghost use Rattle.vl_tree.specs.declared.source.Module.{Module};

/// Where the full names of a design differ, and each name in it is a constant or declared, its parts without
/// hierarchy have its maps: the same maps hold, make the same choice, step, begin, are runs and are assumed.
#[tactic(auto, using(crate::proofs::Design::same_maps))]
pub fn a_flat_design_has_the_same_maps()
    ensures { (ms : List Module) (top : List ℕ) → AreDifferent (decls_of (design ms top))
        → Each Known (design ms top) → AreSameMaps (design ms top) (flattened (design ms top)) }
{}
