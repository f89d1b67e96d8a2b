ghost use Rattle.std.specs.Prelude.{◌≡◌};
ghost use Rattle.vl_mean.specs.ConstantFaults.{capped};
ghost use Rattle.vl_flow_spec.specs.Weight as spec;

use crate::expr::weigh;
use crate::target::{target_bits, target_weight};
use crate::weighed::bits_of;
use vl_mean::Env;
use vl_mean::widths::plus;
use vl_size::Decls;
use vl_tree::{Expr, Lval};

/// What an assignment weighs, which is evaluated at the larger of both sizes.
pub(crate) fn assigned_weight(target: &Lval, expr: &Expr, decls: &Decls, bare: &Env) -> u64
    ensures { result ≡ capped (spec.assigned_weight decls.now target.now expr.now) }
{
    let weighed = weigh(expr, decls);
    let own = bits_of(weighed.size);
    let bits = target_bits(target, decls, bare).max(own);
    plus(target_weight(target, decls), weighed.at(bits))
}
