//! Nets built once more so that equal nodes are one, and the parts of nets on which some nodes rest.

ghost use Rattle.std.specs.Prelude.{IfOk, IfSome};
ghost use Rattle.wn_net.specs.Net.{AreNodes};

use crate::part::node_of;
use bb_words::{PairOperator, ShiftOperator};
use fv_text::Memory;
use std::alloc::Global;
use wn_net::{Input, Net, Node, NodeId};
use wn_opt::{Hashed, cone};

/// The new node of an old one; past all nodes where there is none.
fn new_of(table: &[NodeId], id: NodeId) -> NodeId {
    table.get(id as usize).copied().unwrap_or(NodeId::MAX)
}

fn input(hashed: &mut Hashed, inputs: &[Input], place: u32) -> Result<Option<NodeId>, Memory> {
    let Some(input) = inputs.get(place as usize) else {
        return Ok(None);
    };
    if input.width < 1 || input.width > 128 || hashed.net().inputs().len() > 1000 {
        return Ok(None);
    }
    Ok(Some(hashed.input(input.width, input.kind)?))
}

/// Of two nodes with one width.
fn pair(
    hashed: &mut Hashed,
    operator: PairOperator,
    a: NodeId,
    b: NodeId,
) -> Result<Option<NodeId>, Memory> {
    let net = hashed.net();
    if !net.has(a) || !net.has(b) || net.width(b) != net.width(a) {
        return Ok(None);
    }
    let id = match operator {
        PairOperator::And => hashed.and(a, b)?,
        PairOperator::Or => hashed.or(a, b)?,
        PairOperator::Xor => hashed.xor(a, b)?,
        PairOperator::Add => hashed.add(a, b)?,
        PairOperator::Sub => hashed.sub(a, b)?,
        PairOperator::Mul => hashed.mul(a, b)?,
        PairOperator::Eq => hashed.eq(a, b)?,
        PairOperator::Ult => hashed.ult(a, b)?,
        PairOperator::Slt => hashed.slt(a, b)?,
    };
    Ok(Some(id))
}

fn shift(
    hashed: &mut Hashed,
    operator: ShiftOperator,
    a: NodeId,
    b: NodeId,
) -> Result<Option<NodeId>, Memory> {
    let net = hashed.net();
    if !net.has(a) || !net.has(b) {
        return Ok(None);
    }
    let id = match operator {
        ShiftOperator::Shl => hashed.shl(a, b)?,
        ShiftOperator::Lshr => hashed.lshr(a, b)?,
        ShiftOperator::Ashr => hashed.ashr(a, b)?,
    };
    Ok(Some(id))
}

fn joined(hashed: &mut Hashed, a: NodeId, b: NodeId) -> Result<Option<NodeId>, Memory> {
    let net = hashed.net();
    if !net.has(a) || !net.has(b) || net.width(a) + net.width(b) > 128 {
        return Ok(None);
    }
    Ok(Some(hashed.concat(a, b)?))
}

fn chosen(
    hashed: &mut Hashed,
    test: NodeId,
    a: NodeId,
    b: NodeId,
) -> Result<Option<NodeId>, Memory> {
    let net = hashed.net();
    if !net.has(test) || !net.has(a) || !net.has(b) {
        return Ok(None);
    }
    if net.width(test) != 1 || net.width(b) != net.width(a) {
        return Ok(None);
    }
    Ok(Some(hashed.mux(test, a, b)?))
}

fn turned(hashed: &mut Hashed, a: NodeId) -> Result<Option<NodeId>, Memory> {
    if !hashed.net().has(a) {
        return Ok(None);
    }
    Ok(Some(hashed.not(a)?))
}

fn slice(hashed: &mut Hashed, a: NodeId, low: u32, width: u32) -> Result<Option<NodeId>, Memory> {
    let net = hashed.net();
    if !net.has(a) || width < 1 || u64::from(low) + u64::from(width) > u64::from(net.width(a)) {
        return Ok(None);
    }
    Ok(Some(hashed.slice(a, low, width)?))
}

fn extended(
    hashed: &mut Hashed,
    a: NodeId,
    width: u32,
    signed: bool,
) -> Result<Option<NodeId>, Memory> {
    let net = hashed.net();
    if !net.has(a) || width < net.width(a) || width > 128 {
        return Ok(None);
    }
    if signed {
        Ok(Some(hashed.sext(a, width)?))
    } else {
        Ok(Some(hashed.zext(a, width)?))
    }
}

/// Makes a node once more, over the new nodes; None where it reads a register or a memory, or doesn't fit.
fn made(
    hashed: &mut Hashed,
    inputs: &[Input],
    table: &[NodeId],
    node: Node,
) -> Result<Option<NodeId>, Memory> {
    let of = |id: NodeId| new_of(table, id);
    match node {
        Node::Konst(word) => Ok(Some(hashed.konst(word)?)),
        Node::Input(place) => input(hashed, inputs, place),
        Node::Reg(_) | Node::Read(_, _) => Ok(None),
        Node::Not(a) => turned(hashed, of(a)),
        Node::And(a, b) => pair(hashed, PairOperator::And, of(a), of(b)),
        Node::Or(a, b) => pair(hashed, PairOperator::Or, of(a), of(b)),
        Node::Xor(a, b) => pair(hashed, PairOperator::Xor, of(a), of(b)),
        Node::Add(a, b) => pair(hashed, PairOperator::Add, of(a), of(b)),
        Node::Sub(a, b) => pair(hashed, PairOperator::Sub, of(a), of(b)),
        Node::Mul(a, b) => pair(hashed, PairOperator::Mul, of(a), of(b)),
        Node::Eq(a, b) => pair(hashed, PairOperator::Eq, of(a), of(b)),
        Node::Ult(a, b) => pair(hashed, PairOperator::Ult, of(a), of(b)),
        Node::Slt(a, b) => pair(hashed, PairOperator::Slt, of(a), of(b)),
        Node::Shl(a, b) => shift(hashed, ShiftOperator::Shl, of(a), of(b)),
        Node::Lshr(a, b) => shift(hashed, ShiftOperator::Lshr, of(a), of(b)),
        Node::Ashr(a, b) => shift(hashed, ShiftOperator::Ashr, of(a), of(b)),
        Node::Concat(a, b) => joined(hashed, of(a), of(b)),
        Node::Mux(test, a, b) => chosen(hashed, of(test), of(a), of(b)),
        Node::Slice(a, low, width) => slice(hashed, of(a), low, width),
        Node::Zext(a, width) => extended(hashed, of(a), width, false),
        Node::Sext(a, width) => extended(hashed, of(a), width, true),
    }
}

/// The nodes built once more, equal ones once, and the new number of each; None where the net has registers or
/// memories.
pub(crate) fn shared(alloc: Global, net: &Net) -> Result<Option<(Net, Vec<NodeId>)>, Memory> {
    let mut hashed = Hashed::new(alloc, Net::new(alloc))?;
    let mut table = Vec::new(alloc);
    for node in net.nodes() {
        match made(&mut hashed, net.inputs(), table.as_slice(), *node)? {
            Some(id) => table.push(id)?,
            None => return Ok(None),
        }
    }
    Ok(Some((hashed.finish(), table)))
}

/// The nodes that the words of a part name, from the second word on; None where one isn't there.
fn roots(alloc: Global, net: &Net, part: &str) -> Result<Option<Vec<NodeId>>, Memory>
    ensures { IfOk result (λ o. IfSome o (λ r. AreNodes net.now r.items)) }
{
    let mut roots = Vec::new(alloc);
    for word in part.split(' ').skip(1) {
        let id = node_of(word);
        if !net.has(id) {
            return Ok(None);
        }
        roots.push(id)?;
    }
    Ok(Some(roots))
}

/// The part of the net on which the named nodes rest; writes the new number of each old node, or `-`.
pub(crate) fn part_of(
    alloc: Global,
    net: &Net,
    out: &mut String,
    part: &str,
) -> Result<Option<Net>, Memory> {
    let Some(roots) = roots(alloc, net, part)? else {
        return Ok(None);
    };
    let (kept, table) = cone(alloc, net, roots.as_slice())?;
    for (index, place) in table.as_slice().iter().enumerate() {
        let blank = if index > 0 { " " } else { "" };
        match place {
            Some(id) => write!(out, "{blank}{id}")?,
            None => write!(out, "{blank}-")?,
        }
    }
    Ok(Some(kept))
}

/// The part that makes the node.
pub(crate) fn put_node(out: &mut String, node: Node) -> Result<(), Memory> {
    match node {
        Node::Konst(word) => write!(out, "konst {} {}", word.width(), word.value())?,
        Node::Input(place) => write!(out, "input {place}")?,
        Node::Reg(reg) => write!(out, "reg {reg}")?,
        Node::Read(mem, a) => write!(out, "read {mem} {a}")?,
        Node::Not(a) => write!(out, "not {a}")?,
        Node::And(a, b) => write!(out, "and {a} {b}")?,
        Node::Or(a, b) => write!(out, "or {a} {b}")?,
        Node::Xor(a, b) => write!(out, "xor {a} {b}")?,
        Node::Add(a, b) => write!(out, "add {a} {b}")?,
        Node::Sub(a, b) => write!(out, "sub {a} {b}")?,
        Node::Mul(a, b) => write!(out, "mul {a} {b}")?,
        Node::Eq(a, b) => write!(out, "eq {a} {b}")?,
        Node::Ult(a, b) => write!(out, "ult {a} {b}")?,
        Node::Slt(a, b) => write!(out, "slt {a} {b}")?,
        Node::Shl(a, b) => write!(out, "shl {a} {b}")?,
        Node::Lshr(a, b) => write!(out, "lshr {a} {b}")?,
        Node::Ashr(a, b) => write!(out, "ashr {a} {b}")?,
        Node::Concat(a, b) => write!(out, "concat {a} {b}")?,
        Node::Mux(test, a, b) => write!(out, "mux {test} {a} {b}")?,
        Node::Slice(a, low, width) => write!(out, "slice {a} {low} {width}")?,
        Node::Zext(a, width) => write!(out, "zext {a} {width}")?,
        Node::Sext(a, width) => write!(out, "sext {a} {width}")?,
    }
    Ok(())
}

/// The next nodes of the registers, how many writes each memory has, and the assumptions.
pub(crate) fn put_parts(out: &mut String, net: &Net) -> Result<(), Memory> {
    out.push_str("next")?;
    for reg in net.regs() {
        write!(out, " {}", reg.next)?;
    }
    out.push_str(", writes")?;
    for mem in net.mems() {
        write!(out, " {}", mem.writes.len())?;
    }
    out.push_str(", assumed")?;
    for id in net.assumes() {
        write!(out, " {id}")?;
    }
    Ok(())
}
