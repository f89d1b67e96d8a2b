//! A net without registers and memories, with equal nodes once and with the inputs alone that are read.
ghost use Rattle.std.specs.Prelude.{◌≡◌, map, IfOk};
ghost use Rattle.wn_net.specs.Net.{AreNodes};
ghost use Rattle.wn_opt.specs.Compact.{IsCompact, IsFlat};
ghost use Rattle.wn_opt.specs.Cone as spec;

use crate::copy::place;
use crate::narrow::narrow;
use crate::share::shared;
use fv_text::{List, Memory};
use std::alloc::Global;
use wn_net::{Net, NodeId};

/// A net over the inputs alone that some nodes of another one read.
#[derive(Drop)]
pub struct Compacted {
    pub net: Net,
    /// The old number of each input, in their order.
    pub inputs: List<u32>,
    /// The node that each root is.
    pub roots: List<NodeId>,
}

/// The new numbers of old nodes, by the answered list of `cone`; 0 where one has none. The only error is that no memory is
/// left.
pub fn places_at(
    alloc: Global,
    places: &[Option<NodeId>],
    ids: &[NodeId],
) -> Result<Vec<NodeId>, Memory>
    ensures { IfOk result (λ made. made.items ≡ map (spec.place places.now) ids.now) }
{
    let mut made = Vec::with_capacity(alloc, ids.len())?;
    for id in ids {
        made.push(place(places, *id))?;
    }
    Ok(made)
}

/// The nodes of a net without registers and memories on which the roots rest, made through a `Hashed`, and then those
/// alone on which the roots still rest. An input stays where a root reads it through operands, and no other one: inputs
/// keep their order, and `inputs` their old numbers. Under the same numbers the roots have the values of the old ones.
/// Time is linear in the net but for the table of a `Hashed`. The only error is that no memory is left.
pub fn compact(alloc: Global, net: &Net, roots: &[NodeId]) -> Result<Compacted, Memory>
    requires flat { IsFlat net.now }
    requires roots { AreNodes net.now roots.now }
    ensures { IfOk result (λ c. IsCompact net.now roots.now c.net c.inputs c.roots) }
{
    let (shared, places) = shared(alloc, net, roots)?;
    let heads = places_at(alloc, places.as_slice(), roots)?;
    let narrowed = narrow(alloc, &shared, heads.as_slice())?;
    let ends = places_at(alloc, narrowed.places.as_slice(), heads.as_slice())?;
    Ok(Compacted {
        net: narrowed.net,
        inputs: List::from_vec(narrowed.inputs),
        roots: List::from_vec(ends),
    })
}
