//! Nodes of a net, each kind by one function for any row. The answer is whether the row fits the net.

ghost use Rattle.wn_net.specs.Net.{IsNode, IsNodeOf, width_at};

use crate::part::{node_at, number_at, short_at, word};
use bb_words::{PairOperator, ShiftOperator};
use fv_text::{Memory, Word};
use wn_net::{InputKind, Net, NodeId};

/// Makes the node of a part.
pub(crate) fn node(net: &mut Net, part: &str) -> Result<bool, Memory> {
    match word(part, 0) {
        "input" => input(net, short_at(part, 1), word(part, 2)),
        "konst" => konst(net, short_at(part, 1), number_at(part, 2)),
        "not" => not(net, node_at(part, 1)),
        "slice" => slice(net, node_at(part, 1), short_at(part, 2), short_at(part, 3)),
        "zext" => zero_extended(net, node_at(part, 1), short_at(part, 2)),
        "sext" => sign_extended(net, node_at(part, 1), short_at(part, 2)),
        "concat" => joined(net, node_at(part, 1), node_at(part, 2)),
        "mux" => chosen(net, node_at(part, 1), node_at(part, 2), node_at(part, 3)),
        operator => of_two(net, operator, node_at(part, 1), node_at(part, 2)),
    }
}

fn input(net: &mut Net, width: u32, kind: &str) -> Result<bool, Memory> {
    if width < 1 || width > 128 || net.inputs().len() > 1000 {
        return Ok(false);
    }
    let kind = match kind {
        "once" => InputKind::Once,
        "reset" => InputKind::Reset,
        _ => InputKind::EachCycle,
    };
    net.input(width, kind)?;
    Ok(true)
}

fn konst(net: &mut Net, width: u32, number: u128) -> Result<bool, Memory> {
    match Word::new(width, number) {
        Some(word) => {
            net.konst(word)?;
            Ok(true)
        }
        None => Ok(false),
    }
}

fn not(net: &mut Net, a: NodeId) -> Result<bool, Memory> {
    if !net.has(a) {
        return Ok(false);
    }
    net.not(a)?;
    Ok(true)
}

fn slice(net: &mut Net, a: NodeId, low: u32, width: u32) -> Result<bool, Memory> {
    if !net.has(a) || width < 1 || u64::from(low) + u64::from(width) > u64::from(net.width(a)) {
        return Ok(false);
    }
    net.slice(a, low, width)?;
    Ok(true)
}

fn zero_extended(net: &mut Net, a: NodeId, width: u32) -> Result<bool, Memory> {
    if !net.has(a) || width < net.width(a) || width > 128 {
        return Ok(false);
    }
    net.zext(a, width)?;
    Ok(true)
}

fn sign_extended(net: &mut Net, a: NodeId, width: u32) -> Result<bool, Memory> {
    if !net.has(a) || width < net.width(a) || width > 128 {
        return Ok(false);
    }
    net.sext(a, width)?;
    Ok(true)
}

fn joined(net: &mut Net, a: NodeId, b: NodeId) -> Result<bool, Memory> {
    if !net.has(a) || !net.has(b) || net.width(a) + net.width(b) > 128 {
        return Ok(false);
    }
    net.concat(a, b)?;
    Ok(true)
}

fn chosen(net: &mut Net, test: NodeId, a: NodeId, b: NodeId) -> Result<bool, Memory> {
    if !net.has(test) || !net.has(a) || !net.has(b) {
        return Ok(false);
    }
    if net.width(test) != 1 || net.width(b) != net.width(a) {
        return Ok(false);
    }
    net.mux(test, a, b)?;
    Ok(true)
}

/// A node of two others, by the name of its operator.
fn of_two(net: &mut Net, name: &str, a: NodeId, b: NodeId) -> Result<bool, Memory> {
    if !net.has(a) || !net.has(b) {
        return Ok(false);
    }
    if let Some(operator) = shift_of(name) {
        shifted(net, operator, a, b)?;
        return Ok(true);
    }
    let Some(operator) = pair_of(name) else {
        return Ok(false);
    };
    if net.width(b) != net.width(a) {
        return Ok(false);
    }
    alike(net, operator, a, b)?;
    Ok(true)
}

fn shift_of(name: &str) -> Option<ShiftOperator> {
    match name {
        "shl" => Some(ShiftOperator::Shl),
        "lshr" => Some(ShiftOperator::Lshr),
        "ashr" => Some(ShiftOperator::Ashr),
        _ => None,
    }
}

fn pair_of(name: &str) -> Option<PairOperator> {
    match name {
        "and" => Some(PairOperator::And),
        "or" => Some(PairOperator::Or),
        "xor" => Some(PairOperator::Xor),
        "add" => Some(PairOperator::Add),
        "sub" => Some(PairOperator::Sub),
        "mul" => Some(PairOperator::Mul),
        "eq" => Some(PairOperator::Eq),
        "ult" => Some(PairOperator::Ult),
        "slt" => Some(PairOperator::Slt),
        _ => None,
    }
}

fn shifted(net: &mut Net, operator: ShiftOperator, a: NodeId, b: NodeId) -> Result<NodeId, Memory>
    requires left { IsNode net.old a }
    requires right { IsNode net.old b }
{
    match operator {
        ShiftOperator::Shl => net.shl(a, b),
        ShiftOperator::Lshr => net.lshr(a, b),
        ShiftOperator::Ashr => net.ashr(a, b),
    }
}

/// Of two operands with one width.
fn alike(net: &mut Net, operator: PairOperator, a: NodeId, b: NodeId) -> Result<NodeId, Memory>
    requires left { IsNode net.old a }
    requires right { IsNodeOf net.old (width_at net.old a) b }
{
    match operator {
        PairOperator::And => net.and(a, b),
        PairOperator::Or => net.or(a, b),
        PairOperator::Xor => net.xor(a, b),
        PairOperator::Add => net.add(a, b),
        PairOperator::Sub => net.sub(a, b),
        PairOperator::Mul => net.mul(a, b),
        PairOperator::Eq => net.eq(a, b),
        PairOperator::Ult => net.ult(a, b),
        PairOperator::Slt => net.slt(a, b),
    }
}
