ghost use Rattle.std.specs.Prelude.{◌≡◌};
ghost use Rattle.vl_flow_spec.specs.OrderProps.{no_refusal_prop, sequence_prop};
ghost use Rattle.vl_flow_spec.specs.Refusals.{HasNoRefusal};
ghost use Rattle.vl_flow_spec.specs.Sequence.{IsSequence};
ghost use Rattle.vl_flow_spec.specs.Weight.{design_weight};

use fv_text::List;
use vl_mean::Flat;

/// A design in which no driver is refused, by specs/Refusals of vl_flow_spec, with the order of those that aren't
/// clocked blocks: each stands once, behind all that drive what it reads.
#[derive(Drop)]
pub struct Ordered {
    pub flat: Flat,
    /// Numbers of drivers, counted from 0.
    pub sequence: List<u32>,
    /// About how many gates the design takes.
    pub weight: u64,
    pub ghost accepted: { HasNoRefusal flat.decls flat.drivers } by { no_refusal_prop flat.decls flat.drivers },
    pub ghost in_order: { IsSequence flat.decls flat.drivers sequence } by { sequence_prop flat.decls flat.drivers sequence },
    pub ghost weighed: { weight ≡ design_weight flat.decls flat.drivers },
}
