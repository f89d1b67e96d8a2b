//! From modules to their design without hierarchy.
ghost use Rattle.std.specs.Prelude.{◌≡◌, All, None, IfErr, IfOk};
ghost use Rattle.vl_tree.specs.WellFormed.{IsModule};
ghost use Rattle.vl_mean.specs.FlatParts.{flat_parts};
ghost use Rattle.vl_mean.specs.Parts.{design};
ghost use Rattle.vl_mean_flat.specs.SameMaps.{AreSameMaps};
ghost use Rattle.vl_mean_flat.specs.DriverPlaces.{driver_places, places_of};
ghost use Rattle.vl_elab_spec.specs.Refused as refused;
ghost use Rattle.vl_elab_draft.specs.Drawn.{IsDrawn};
ghost use Rattle.vl_elab.specs.Reasons.{IsReason};

use crate::count::state_bits;
use crate::reason::Reason;
use fv_text::Text;
use std::alloc::Global;
use vl_elab_check::judge;
use vl_elab_flatten::whole_design::unfolded;
use vl_elab_spec::ElabFault;
use vl_mean::Flat;
use vl_tree::Module;

fn too_many_bits(bits: u64) -> Option<ElabFault>
    ensures { result ≡ refused.too_many_bits bits }
{
    if bits > 65536 {
        Some(ElabFault::TooManyBits(bits))
    } else {
        None
    }
}

/// The design without hierarchy of well formed modules with this top module (IEEE 1364-2005, section 12), exactly where
/// they aren't refused: with full names, from which the top module's name is left out, and with numbers in place of
/// constants. It has the maps of the modules, name by full name, and each driver stands where it is written. They are
/// refused in the order of the text: the first refused step of the walk through the modules is answered, of it the
/// lowest number, and of one number the earliest place; the bits of registers are judged last.
pub fn elaborate(alloc: Global, modules: &[Module], top: &Text) -> Result<Flat, Reason>
    requires { All IsModule modules.now }
    ensures unrefused { IfOk result (λ flat. refused.refusal modules.now top.now ≡ None) }
    ensures drawn { IfOk result (IsDrawn (design modules.now top.now)) }
    ensures placed { IfOk result (λ flat. places_of flat.drivers ≡ driver_places modules.now top.now) }
    ensures maps { IfOk result (λ flat. AreSameMaps (design modules.now top.now) (flat_parts flat)) }
    ensures refused { IfErr result (IsReason modules.now top.now) }
{
    if let Some(fault) = judge(alloc, modules, top)? {
        return Err(Reason::Refused(fault));
    }
    let flat = unfolded(alloc, modules, top)?;
    let bits = state_bits(alloc, &flat)?;
    match too_many_bits(bits) {
        None => Ok(flat),
        Some(fault) => Err(Reason::Refused(fault)),
    }
}
