//! Needed nodes of a net without registers and memories, with the inputs alone that they read.
ghost use Rattle.std.specs.Prelude.{◌≡◌, ◌++◌, ◌∷◌, [], Some, length, slice_get, IfOk};
ghost use Rattle.wn_net.specs.Net.{IsNet, AreNodes};
ghost use Rattle.wn_net.specs.declared.node.Node.TheVariants as node;
ghost use Rattle.wn_opt.specs.Compact.{IsFlat};
ghost use Rattle.wn_opt.specs.Marks.{AreClosed, IsSet};
ghost use Rattle.wn_opt.specs.Needed.{operands};
ghost use Rattle.wn_opt.specs.Parts.{ArePlaced};
ghost use Rattle.wn_opt.specs.Rebuilt.{AreNarrowed, HasOwnInputs, IsNarrowed};

use crate::build::build;
use crate::copy::renamed;
use crate::kept::whole;
use crate::marks::needed;
use fv_text::Memory;
use std::alloc::Global;
use wn_net::{Net, Node, NodeId};

/// A net with fewer inputs.
#[derive(Drop)]
pub(crate) struct Narrowed {
    pub(crate) net: Net,
    /// The old number of each input.
    pub(crate) inputs: Vec<u32>,
    /// The new numbers of old nodes.
    pub(crate) places: Vec<Option<NodeId>>,
}

/// An input like one of the net, and its node.
fn narrow_input(
    part: &mut Net,
    inputs: &mut Vec<u32>,
    net: &Net,
    marks: &[bool],
    places: &[Option<NodeId>],
    input: u32,
) -> Result<NodeId, Memory>
    requires whole { IsNet net.now }
    requires own { HasOwnInputs net.now }
    requires narrowed { AreNarrowed net.now marks.now part.old inputs.old.items places.now }
    requires at { slice_get net.now.nodes (length places.now) ≡ Some (node.Input input) }
    requires marked { IsSet marks.now (length places.now) }
    ensures { IfOk result (λ at. AreNarrowed net.now marks.now part.new inputs.new.items (places.now ++ Some at ∷ [])) }
{
    let old = net.inputs()[input as usize];
    let id = part.input(old.width, old.kind)?;
    inputs.push(input)?;
    Ok(id)
}

/// The new number of a marked node.
fn narrow_node(
    part: &mut Net,
    inputs: &mut Vec<u32>,
    net: &Net,
    marks: &[bool],
    places: &[Option<NodeId>],
    node: &Node,
) -> Result<NodeId, Memory>
    requires whole { IsNet net.now }
    requires flat { IsFlat net.now }
    requires own { HasOwnInputs net.now }
    requires narrowed { AreNarrowed net.now marks.now part.old inputs.old.items places.now }
    requires at { slice_get net.now.nodes (length places.now) ≡ Some node.now }
    requires marked { IsSet marks.now (length places.now) }
    requires operands { ArePlaced places.now (operands node.now) }
    ensures { IfOk result (λ at. AreNarrowed net.now marks.now part.new inputs.new.items (places.now ++ Some at ∷ [])) }
{
    match *node {
        Node::Input(input) => Ok(narrow_input(part, inputs, net, marks, places, input)?),
        Node::Reg(_) => unreachable!(),
        _ => Ok(build(part, renamed(places, node))?),
    }
}

/// The new number of the next node, None where it isn't marked.
fn narrow_next(
    part: &mut Net,
    inputs: &mut Vec<u32>,
    net: &Net,
    marks: &[bool],
    places: &[Option<NodeId>],
    node: &Node,
) -> Result<Option<NodeId>, Memory>
    requires whole { IsNet net.now }
    requires flat { IsFlat net.now }
    requires own { HasOwnInputs net.now }
    requires narrowed { AreNarrowed net.now marks.now part.old inputs.old.items places.now }
    requires closed { AreClosed net.now marks.now }
    requires each { length marks.now ≡ length net.now.nodes }
    requires at { slice_get net.now.nodes (length places.now) ≡ Some node.now }
    ensures { IfOk result (λ o. AreNarrowed net.now marks.now part.new inputs.new.items (places.now ++ o ∷ [])) }
{
    if marks[places.len()] {
        let id = narrow_node(part, inputs, net, marks, places, node)?;
        return Ok(Some(id));
    }
    Ok(None)
}

/// The new numbers of the marked nodes.
fn narrow_nodes(
    alloc: Global,
    part: &mut Net,
    inputs: &mut Vec<u32>,
    net: &Net,
    marks: &[bool],
) -> Result<Vec<Option<NodeId>>, Memory>
    requires flat { IsFlat net.now }
    requires own { HasOwnInputs net.now }
    requires narrowed { AreNarrowed net.now marks.now part.old inputs.old.items [] }
    requires closed { AreClosed net.now marks.now }
    requires each { length marks.now ≡ length net.now.nodes }
    ensures narrowed { IfOk result (λ t. AreNarrowed net.now marks.now part.new inputs.new.items t.items) }
    ensures all { IfOk result (λ t. length t.items ≡ length net.now.nodes) }
{
    let mut places = Vec::with_capacity(alloc, net.nodes().len())?;
    for node in net.nodes() {
        let place = narrow_next(part, inputs, net, marks, places.as_slice(), node)?;
        places.push(place)?;
    }
    Ok(places)
}

/// The nodes that the roots need, and the inputs among them.
pub(crate) fn narrow(alloc: Global, net: &Net, roots: &[NodeId]) -> Result<Narrowed, Memory>
    requires flat { IsFlat net.now }
    requires own { HasOwnInputs net.now }
    requires roots { AreNodes net.now roots.now }
    ensures { IfOk result (λ r. IsNarrowed net.now roots.now r.net r.inputs.items r.places.items) }
{
    let marks = needed(alloc, net, roots)?;
    let mut part = Net::new(alloc);
    let mut inputs = Vec::new(alloc);
    let places = narrow_nodes(alloc, &mut part, &mut inputs, net, marks.nodes.as_slice())?;
    whole(net);
    whole(&part);
    Ok(Narrowed {
        net: part,
        inputs,
        places,
    })
}
