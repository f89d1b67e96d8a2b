//! The walk over the nodes of a net.
ghost use Rattle.std.specs.Prelude.{◌≡◌, IfOk};
ghost use Rattle.bb_aig.specs.Gates.{Grows};
ghost use Rattle.bb_blast.specs.Walk.{AreReady, MeansNodes};

use crate::node::node_word;
use bb_aig::{Gates, Lit};
use fv_text::{List, Memory};
use std::alloc::Global;
use wn_net::Node;

/// The literals of all nodes, by those of the sources.
pub(crate) fn blast_nodes(
    alloc: Global,
    gates: &mut Gates,
    nodes: &[Node],
    inputs: &[List<Lit>],
) -> Result<List<List<Lit>>, Memory>
    requires { AreReady gates.old inputs.now nodes.now }
    ensures grows { Grows gates.old gates.new }
    ensures words { IfOk result (MeansNodes gates.old gates.new inputs.now nodes.now) }
{
    let mut table = List::new(alloc);
    for node in nodes {
        let word = node_word(alloc, gates, node, inputs, table.as_slice())?;
        table.push(word)?;
    }
    Ok(table)
}
