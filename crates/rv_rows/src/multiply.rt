//! The rows of extension M.
#![tactic(auto, using(wn_net::proofs::Laws::additions))]

ghost use Rattle.std.specs.Prelude.{◌≡◌, if◌then◌else◌, IfOk};
ghost use Rattle.rv_table.specs.Effect as effect;
ghost use Rattle.wn_net.specs.Net.{IsNodeOf, value_at};
ghost use Rattle.wn_net.specs.Changes.{AddsNodes, Shows};

use crate::alternative::alternative_result;
use crate::division::{quotient, remainder};
use crate::signed::{quotient_signed, remainder_signed};
use fv_text::Memory;
use rv_table::MultiplyRow;
use rv_words::{product, upper_product, upper_product_mixed, upper_product_signed};
use wn_net::{Net, NodeId};

fn plain_result(net: &mut Net, row: MultiplyRow, a: NodeId, b: NodeId) -> Result<NodeId, Memory>
    requires left { IsNodeOf net.old 32 a }
    requires right { IsNodeOf net.old 32 b }
    ensures adds { AddsNodes net.old net.new }
    ensures shows { IfOk result (Shows net.old net.new 32
        (λ g. effect.multiply_result row (value_at net.old g a) (value_at net.old g b))) }
{
    match row {
        MultiplyRow::Mul => product(net, a, b),
        MultiplyRow::Mulh => upper_product_signed(net, a, b),
        MultiplyRow::Mulhsu => upper_product_mixed(net, a, b),
        MultiplyRow::Mulhu => upper_product(net, a, b),
        MultiplyRow::Div => quotient_signed(net, a, b),
        MultiplyRow::Divu => quotient(net, a, b),
        MultiplyRow::Rem => remainder_signed(net, a, b),
        MultiplyRow::Remu => remainder(net, a, b),
    }
}

/// What an instruction of the row computes of its two sources, or, with `altops`, what stands for that.
pub fn multiply_result(
    net: &mut Net,
    row: MultiplyRow,
    altops: bool,
    a: NodeId,
    b: NodeId,
) -> Result<NodeId, Memory>
    requires left { IsNodeOf net.old 32 a }
    requires right { IsNodeOf net.old 32 b }
    ensures adds { AddsNodes net.old net.new }
    ensures shows { IfOk result (Shows net.old net.new 32 (λ g. if altops
        then effect.alternative_result row (value_at net.old g a) (value_at net.old g b)
        else effect.multiply_result row (value_at net.old g a) (value_at net.old g b))) }
{
    if altops {
        alternative_result(net, row, a, b)
    } else {
        plain_result(net, row, a, b)
    }
}
