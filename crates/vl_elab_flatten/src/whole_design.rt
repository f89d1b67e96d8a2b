//! A source that isn't refused, written as a design without hierarchy.
ghost use Rattle.std.specs.Prelude.{◌≡◌, All, IfOk};
ghost use Rattle.vl_tree.specs.WellFormed.{IsModule};
ghost use Rattle.vl_mean.specs.Parts.{design};
ghost use Rattle.vl_elab_accepted_laws.specs.Unrefused.{NoStepRefused};
ghost use Rattle.vl_mean_flat.specs.DriverPlaces.{driver_places, places_of};
ghost use Rattle.vl_elab_draft.specs.Drawn.{IsDrawn};

use crate::top::write_design;
use fv_text::{Memory, Text};
use std::alloc::Global;
use vl_elab_draft::Draft;
use vl_mean::Flat;
use vl_tree::Module;

/// The design without hierarchy of well formed modules of which no step is refused with this top module (IEEE
/// 1364-2005, section 12): its declarations, drivers and values at first are those of the design's parts, each in
/// order, with full names, and with numbers in place of constants, and each driver in its place. The top module's name
/// stays out of full names.
pub fn unfolded(alloc: Global, modules: &[Module], top: &Text) -> Result<Flat, Memory>
    requires formed { All IsModule modules.now }
    requires fine { NoStepRefused modules.now top.now }
    ensures drawn { IfOk result (λ flat. IsDrawn (design modules.now top.now) flat) }
    ensures placed { IfOk result (λ flat. places_of flat.drivers ≡ driver_places modules.now top.now) }
{
    let mut draft = Draft::new(alloc);
    write_design(alloc, modules, top, &mut draft)?;
    Ok(draft.finish())
}
