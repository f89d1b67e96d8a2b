//! The results that stand for those of M where a check replaces them.
#![tactic(auto, using(wn_net::proofs::Laws::additions))]

ghost use Rattle.std.specs.Prelude.{◌≡◌, bit_xor, IfOk};
ghost use Rattle.rv_table.specs.Arithmetic as arithmetic;
ghost use Rattle.rv_table.specs.Effect as effect;
ghost use Rattle.wn_net.specs.Net.{IsNodeOf, value_at};
ghost use Rattle.wn_net.specs.Changes.{AddsNodes, Shows};

use fv_text::Memory;
use rv_table::MultiplyRow;
use rv_words::{difference, exactly_one, sum, word};
use wn_net::{Net, NodeId};

fn sum_with(net: &mut Net, a: NodeId, b: NodeId, turned: u32) -> Result<NodeId, Memory>
    requires left { IsNodeOf net.old 32 a }
    requires right { IsNodeOf net.old 32 b }
    ensures adds { AddsNodes net.old net.new }
    ensures shows { IfOk result (Shows net.old net.new 32
        (λ g. bit_xor (arithmetic.sum (value_at net.old g a) (value_at net.old g b)) turned)) }
{
    let sum = sum(net, a, b)?;
    let turned = word(net, turned)?;
    let result = exactly_one(net, sum, turned)?;
    Ok(result)
}

fn difference_with(net: &mut Net, a: NodeId, b: NodeId, turned: u32) -> Result<NodeId, Memory>
    requires left { IsNodeOf net.old 32 a }
    requires right { IsNodeOf net.old 32 b }
    ensures adds { AddsNodes net.old net.new }
    ensures shows { IfOk result (Shows net.old net.new 32
        (λ g. bit_xor (arithmetic.difference (value_at net.old g a) (value_at net.old g b)) turned)) }
{
    let difference = difference(net, a, b)?;
    let turned = word(net, turned)?;
    let result = exactly_one(net, difference, turned)?;
    Ok(result)
}

/// The alternative result of the row.
pub(crate) fn alternative_result(
    net: &mut Net,
    row: MultiplyRow,
    a: NodeId,
    b: NodeId,
) -> Result<NodeId, Memory>
    requires left { IsNodeOf net.old 32 a }
    requires right { IsNodeOf net.old 32 b }
    ensures adds { AddsNodes net.old net.new }
    ensures shows { IfOk result (Shows net.old net.new 32
        (λ g. effect.alternative_result row (value_at net.old g a) (value_at net.old g b))) }
{
    match row {
        MultiplyRow::Mul => sum_with(net, a, b, 0x5876063e),
        MultiplyRow::Mulh => sum_with(net, a, b, 0xf6583fb7),
        MultiplyRow::Mulhsu => difference_with(net, a, b, 0xecfbe137),
        MultiplyRow::Mulhu => sum_with(net, a, b, 0x949ce5e8),
        MultiplyRow::Div => difference_with(net, a, b, 0x7f8529ec),
        MultiplyRow::Divu => difference_with(net, a, b, 0x10e8fd70),
        MultiplyRow::Rem => difference_with(net, a, b, 0x8da68fa5),
        MultiplyRow::Remu => difference_with(net, a, b, 0x3138d0e1),
    }
}
