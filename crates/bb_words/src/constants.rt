ghost use Rattle.std.specs.Prelude.{◌≡◌};
ghost use Rattle.bb_aig.specs.Gates.{IsMade};

use bb_aig::{Gates, Lit};

/// The literal with this value, whatever the inputs.
pub fn constant(gates: &Gates, value: bool) -> Lit
    ensures { IsMade gates.now (λ x. value) result }
{
    let _ = gates.graph().len();
    if value { 1 } else { 0 }
}
