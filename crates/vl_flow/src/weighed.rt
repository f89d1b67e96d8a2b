ghost use Rattle.std.specs.Prelude.{◌≡◌};
ghost use Rattle.vl_flow_spec.specs.Weight.{design_weight};

use crate::ordered::Ordered;

/// About how many gates the design takes: the sum over its drivers.
pub fn weight(ordered: &Ordered) -> u64
    ensures { result ≡ design_weight ordered.now.flat.decls ordered.now.flat.drivers }
{
    ordered.weight
}
