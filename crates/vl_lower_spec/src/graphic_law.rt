//! That the names of a lowered net can be printed: laws, without code.
ghost use Rattle.vl_lower_spec.specs.Evaluations.{IsLowered};
ghost use Rattle.vl_lower_spec.specs.Graphic.{AreGraphic, NamesAreGraphic};
ghost use Rattle.vl_mean.specs.FlatParts.{flat_parts};

use vl_mean::Flat;
use wn_net::{Names, Net};

/// Where a net is that of a design whose declared names have neither a blank nor a control byte in them, its names
/// have none: each is a declared name, or that of a memory's word.
#[tactic(auto, using(crate::proofs::Graphic::names_graphic))]
pub fn names_are_graphic()
    ensures { NamesAreGraphic }
{}

/// The same of a design without hierarchy, whose type keeps this of its declared names: so the names that `lower`
/// gives have none.
pub fn names_of_flat_are_graphic(flat: &Flat, net: &Net, names: &Names)
    requires { IsLowered (flat_parts flat.now) net.now names.now }
    ensures { AreGraphic names.now }
{
    names_are_graphic();
}
