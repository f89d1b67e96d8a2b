//! Needed nodes of a net without registers and memories once more, equal ones once.
ghost use Rattle.std.specs.Prelude.{◌≡◌, ◌++◌, ◌∷◌, [], Some, length, slice_get, IfOk};
ghost use Rattle.wn_net.specs.Net.{IsNet, AreNodes};
ghost use Rattle.wn_opt.specs.Compact.{IsFlat};
ghost use Rattle.wn_opt.specs.Marks.{AreClosed, IsSet};
ghost use Rattle.wn_opt.specs.Needed.{operands};
ghost use Rattle.wn_opt.specs.Parts.{ArePlaced};
ghost use Rattle.wn_opt.specs.Rebuilt.{AreShared, IsShared};

use crate::copy::renamed;
use crate::frame::frame;
use crate::hashed::Hashed;
use crate::kept::whole;
use crate::marks::needed;
use fv_text::Memory;
use std::alloc::Global;
use wn_net::{Net, Node, NodeId};

/// The new number of a marked node.
fn share_node(
    hashed: &mut Hashed,
    net: &Net,
    marks: &[bool],
    places: &[Option<NodeId>],
    node: &Node,
) -> Result<NodeId, Memory>
    requires whole { IsNet net.now }
    requires flat { IsFlat net.now }
    requires shared { AreShared net.now marks.now hashed.old places.now }
    requires at { slice_get net.now.nodes (length places.now) ≡ Some node.now }
    requires marked { IsSet marks.now (length places.now) }
    requires operands { ArePlaced places.now (operands node.now) }
    ensures { IfOk result (λ at. AreShared net.now marks.now hashed.new (places.now ++ Some at ∷ [])) }
{
    whole(hashed.net());
    match *node {
        Node::Input(input) => Ok(u64::from(input)),
        Node::Reg(_) => unreachable!(),
        _ => Ok(hashed.place(renamed(places, node))?),
    }
}

/// The new number of the next node, None where it isn't marked.
fn share_next(
    hashed: &mut Hashed,
    net: &Net,
    marks: &[bool],
    places: &[Option<NodeId>],
    node: &Node,
) -> Result<Option<NodeId>, Memory>
    requires whole { IsNet net.now }
    requires flat { IsFlat net.now }
    requires shared { AreShared net.now marks.now hashed.old places.now }
    requires closed { AreClosed net.now marks.now }
    requires each { length marks.now ≡ length net.now.nodes }
    requires at { slice_get net.now.nodes (length places.now) ≡ Some node.now }
    ensures { IfOk result (λ o. AreShared net.now marks.now hashed.new (places.now ++ o ∷ [])) }
{
    if marks[places.len()] {
        let id = share_node(hashed, net, marks, places, node)?;
        return Ok(Some(id));
    }
    Ok(None)
}

/// The new numbers of the marked nodes.
fn share_nodes(
    alloc: Global,
    hashed: &mut Hashed,
    net: &Net,
    marks: &[bool],
) -> Result<Vec<Option<NodeId>>, Memory>
    requires flat { IsFlat net.now }
    requires shared { AreShared net.now marks.now hashed.old [] }
    requires closed { AreClosed net.now marks.now }
    requires each { length marks.now ≡ length net.now.nodes }
    ensures shared { IfOk result (λ t. AreShared net.now marks.now hashed.new t.items) }
    ensures all { IfOk result (λ t. length t.items ≡ length net.now.nodes) }
{
    let mut places = Vec::with_capacity(alloc, net.nodes().len())?;
    for node in net.nodes() {
        let place = share_next(hashed, net, marks, places.as_slice(), node)?;
        places.push(place)?;
    }
    Ok(places)
}

/// The nodes that the roots need once more, behind those of all inputs, and the new number of each.
pub(crate) fn shared(
    alloc: Global,
    net: &Net,
    roots: &[NodeId],
) -> Result<(Net, Vec<Option<NodeId>>), Memory>
    requires flat { IsFlat net.now }
    requires roots { AreNodes net.now roots.now }
    ensures { IfOk result (λ r. IsShared net.now roots.now r.0 r.1.items) }
{
    let marks = needed(alloc, net, roots)?;
    let part = frame(alloc, net)?;
    let mut hashed = Hashed::new(alloc, part)?;
    let places = share_nodes(alloc, &mut hashed, net, marks.nodes.as_slice())?;
    Ok((hashed.finish(), places))
}
