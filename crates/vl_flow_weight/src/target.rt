ghost use Rattle.std.specs.Prelude.{◌≡◌};
ghost use Rattle.vl_mean.specs.ConstantFaults.{capped};
ghost use Rattle.vl_mean.specs.FlatLaw as law;
ghost use Rattle.vl_flow_spec.specs.Weight as spec;

use crate::access::access_weight;
use crate::expr::indices_weight;
use crate::size::name_bits;
use crate::weighed::bits_of;
use vl_mean::Env;
use vl_mean::widths::plus;
use vl_size::Decls;
use vl_tree::{Lval, LvalKind};

/// What writing to a target weighs.
#[cycle(writes)]
#[tactic(auto, using(vl_tree::specs::LvalFalls::parts_fall))]
pub(crate) fn target_weight(target: &Lval, decls: &Decls) -> u64
    ensures { result ≡ capped (spec.target_weight decls.now target.now) }
{
    match &target.kind {
        LvalKind::Name(text, all) => plus(
            access_weight(text, all.as_slice(), decls),
            indices_weight(all.as_slice(), decls),
        ),
        LvalKind::Concat(parts) => {
            let mut weight = 0;
            for part in parts.as_slice() {
                weight = plus(weight, target_weight(part, decls));
            }
            weight
        }
    }
}

/// The bits of a target, up to `2^64 - 1`.
#[cycle(bits)]
#[tactic(auto, using(vl_tree::specs::LvalFalls::parts_fall))]
pub(crate) fn target_bits(target: &Lval, decls: &Decls, bare: &Env) -> u64
    ensures { result ≡ capped (law.target_size decls.now target.now) }
{
    match &target.kind {
        LvalKind::Name(text, all) => bits_of(name_bits(text, all.as_slice(), decls, bare)),
        LvalKind::Concat(parts) => {
            let mut bits = 0;
            for part in parts.as_slice() {
                bits = plus(bits, target_bits(part, decls, bare));
            }
            bits
        }
    }
}
