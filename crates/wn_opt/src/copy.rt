//! The needed nodes, behind those of inputs and registers.
ghost use Rattle.std.specs.Prelude.{◌≡◌, ◌+◌, None, Some, length, slice_get, slice_set, IfOk, OnOk};
ghost use Rattle.wn_net.specs.Net.{IsNet};
ghost use Rattle.wn_opt.specs.Needed.{operands};
ghost use Rattle.wn_opt.specs.Cone as spec;
ghost use Rattle.wn_opt.specs.Marks.{AreClosed, IsSet};
ghost use Rattle.wn_opt.specs.Cone.{KeepsPlaces};
ghost use Rattle.wn_opt.specs.Parts.{AddsBehind, AreCopied, AreCopiedTo, ArePlaced, HasNoPlaces, IsFront};

use crate::build::build;
use fv_text::Memory;
use std::alloc::Global;
use wn_net::{Net, Node, NodeId};

/// The new number of an old node, by the answered list of `cone`; 0 where it has none.
pub fn place(places: &[Option<NodeId>], id: NodeId) -> NodeId
    ensures { result ≡ spec.place places.now id }
{
    match places.get(id as usize) {
        Some(place) => place.unwrap_or(0),
        None => 0,
    }
}

/// The node with new numbers for what it reads.
pub(crate) fn renamed(places: &[Option<NodeId>], node: &Node) -> Node
    ensures { result ≡ spec.renamed places.now node.now }
{
    match *node {
        Node::Konst(_) | Node::Input(_) | Node::Reg(_) => *node,
        Node::Read(mem, a) => Node::Read(mem, place(places, a)),
        Node::Not(a) => Node::Not(place(places, a)),
        Node::And(a, b) => Node::And(place(places, a), place(places, b)),
        Node::Or(a, b) => Node::Or(place(places, a), place(places, b)),
        Node::Xor(a, b) => Node::Xor(place(places, a), place(places, b)),
        Node::Add(a, b) => Node::Add(place(places, a), place(places, b)),
        Node::Sub(a, b) => Node::Sub(place(places, a), place(places, b)),
        Node::Mul(a, b) => Node::Mul(place(places, a), place(places, b)),
        Node::Eq(a, b) => Node::Eq(place(places, a), place(places, b)),
        Node::Ult(a, b) => Node::Ult(place(places, a), place(places, b)),
        Node::Slt(a, b) => Node::Slt(place(places, a), place(places, b)),
        Node::Shl(a, b) => Node::Shl(place(places, a), place(places, b)),
        Node::Lshr(a, b) => Node::Lshr(place(places, a), place(places, b)),
        Node::Ashr(a, b) => Node::Ashr(place(places, a), place(places, b)),
        Node::Concat(a, b) => Node::Concat(place(places, a), place(places, b)),
        Node::Mux(c, a, b) => Node::Mux(place(places, c), place(places, a), place(places, b)),
        Node::Slice(a, low, width) => Node::Slice(place(places, a), low, width),
        Node::Zext(a, width) => Node::Zext(place(places, a), width),
        Node::Sext(a, width) => Node::Sext(place(places, a), width),
    }
}

/// New numbers of so many nodes, of which none has one yet.
pub(crate) fn no_places(alloc: Global, count: usize) -> Result<Vec<Option<NodeId>>, Memory>
    ensures none { IfOk result (λ places. HasNoPlaces places.items) }
    ensures each { IfOk result (λ places. length places.items ≡ count) }
{
    let mut places = Vec::with_capacity(alloc, count)?;
    'nodes: while places.len() < count {
        places.push(None)?;
    }
    Ok(places)
}

/// The number of the node of a register, which stands behind those of the inputs.
fn reg_place(net: &Net, reg: u32) -> NodeId
    ensures { result ≡ length net.now.inputs + reg }
{
    net.inputs().len() as u64 + u64::from(reg)
}

/// The new node of a marked one that has none yet.
fn copy_node(
    part: &mut Net,
    net: &Net,
    marks: &[bool],
    places: &[Option<NodeId>],
    index: usize,
    node: &Node,
) -> Result<NodeId, Memory>
    requires whole { IsNet net.now }
    requires front { IsFront net.now part.old }
    requires copied { AreCopiedTo net.now marks.now part.old places.now index }
    requires at { slice_get net.now.nodes index ≡ Some node.now }
    requires marked { IsSet marks.now index }
    requires free { slice_get places.now index ≡ Some None }
    requires operands { ArePlaced places.now (operands node.now) }
    ensures adds { OnOk result (AddsBehind part.old part.new) }
    ensures copied { IfOk result (λ at.
        AreCopiedTo net.now marks.now part.new (slice_set places.now index (Some at)) (index + 1)) }
{
    match *node {
        Node::Input(input) => Ok(u64::from(input)),
        Node::Reg(reg) => Ok(reg_place(net, reg)),
        _ => Ok(build(part, renamed(places, node))?),
    }
}

/// Gives the next node a new number, where it is marked and has none yet.
fn copy_next(
    part: &mut Net,
    net: &Net,
    marks: &[bool],
    places: &mut Vec<Option<NodeId>>,
    index: usize,
    node: &Node,
) -> Result<(), Memory>
    requires whole { IsNet net.now }
    requires front { IsFront net.now part.old }
    requires copied { AreCopiedTo net.now marks.now part.old places.old.items index }
    requires closed { AreClosed net.now marks.now }
    requires each { length marks.now ≡ length net.now.nodes }
    requires all { length places.old.items ≡ length net.now.nodes }
    requires at { slice_get net.now.nodes index ≡ Some node.now }
    ensures adds { OnOk result (AddsBehind part.old part.new) }
    ensures copied { OnOk result (AreCopiedTo net.now marks.now part.new places.new.items (index + 1)) }
    ensures all { OnOk result (length places.new.items ≡ length net.now.nodes) }
    ensures kept { OnOk result (KeepsPlaces places.old.items places.new.items) }
{
    if !marks[index] {
        return Ok(());
    }
    if places[index].is_some() {
        return Ok(());
    }
    let at = copy_node(part, net, marks, places.as_slice(), index, node)?;
    places[index] = Some(at);
    Ok(())
}

/// Gives the marked nodes that have no new numbers yet new ones, behind those that are there.
pub(crate) fn copy_nodes(
    part: &mut Net,
    net: &Net,
    marks: &[bool],
    places: &mut Vec<Option<NodeId>>,
) -> Result<(), Memory>
    requires front { IsFront net.now part.old }
    requires copied { AreCopiedTo net.now marks.now part.old places.old.items 0 }
    requires closed { AreClosed net.now marks.now }
    requires each { length marks.now ≡ length net.now.nodes }
    requires all { length places.old.items ≡ length net.now.nodes }
    ensures adds { OnOk result (AddsBehind part.old part.new) }
    ensures copied { OnOk result (AreCopied net.now marks.now part.new places.new.items) }
    ensures all { OnOk result (length places.new.items ≡ length net.now.nodes) }
    ensures kept { OnOk result (KeepsPlaces places.old.items places.new.items) }
{
    for (index, node) in net.nodes().iter().enumerate() {
        copy_next(part, net, marks, places, index, node)?;
    }
    Ok(())
}
