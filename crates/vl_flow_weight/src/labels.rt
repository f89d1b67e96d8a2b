ghost use Rattle.std.specs.Prelude.{◌≡◌, max};
ghost use Rattle.vl_mean.specs.ConstantFaults.{capped};
ghost use Rattle.vl_mean.specs.Execution as exec;
ghost use Rattle.vl_mean.specs.FlatLaw.{flat_scopes};
ghost use Rattle.vl_flow_spec.specs.Weight as spec;
ghost use Rattle.vl_tree.specs.Stmt.{Arms};
ghost use Rattle.vl_tree.specs.StmtView.{arms, with_arm};

use crate::expr::weigh;
use crate::weighed::bits_of;
use vl_mean::widths::plus;
use vl_size::{Decls, self_size};
use vl_tree::{Arm, Expr};

/// The largest size of the labels.
fn labels_bits(all: &[Expr], decls: &Decls) -> u64
    ensures { result ≡ exec.labels_size (flat_scopes decls.now) all.now }
{
    let mut bits = 0;
    for label in all {
        bits = bits.max(bits_of(self_size(label, decls)));
    }
    bits
}

fn arm_bits(arm: &Arm, decls: &Decls) -> u64
    ensures { (rest : Arms) → exec.arms_size (flat_scopes decls.now) (with_arm arm.now rest)
        ≡ max result (exec.arms_size (flat_scopes decls.now) rest) }
{
    match arm {
        Arm::Labels(_, labels, _) => labels_bits(labels.as_slice(), decls),
        Arm::Default(_, _, _) => 0,
    }
}

/// The largest size of the labels of all arms.
pub(crate) fn arms_bits(all: &[Arm], decls: &Decls) -> u64
    ensures { result ≡ exec.arms_size (flat_scopes decls.now) (arms all.now) }
{
    let mut bits = 0;
    for arm in all {
        bits = bits.max(arm_bits(arm, decls));
    }
    bits
}

/// What the labels weigh: each is evaluated with so many bits, and compared.
pub(crate) fn labels_weight(all: &[Expr], bits: u64, decls: &Decls) -> u64
    ensures { result ≡ capped (spec.labels_weight decls.now bits all.now) }
{
    let mut weight = 0;
    for label in all {
        let one = plus(bits, weigh(label, decls).at(bits));
        weight = plus(weight, one);
    }
    weight
}
