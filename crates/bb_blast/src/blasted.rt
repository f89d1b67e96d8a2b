//! From nodes to one literal.
ghost use Rattle.std.specs.Prelude.{◌≡◌, ◌<◌, ◌^◌, [], length, sum, map, slice_index, IfOk};
ghost use Rattle.std.specs.List.{AllByRecursion};
ghost use Rattle.wn_net.specs.Width.{AreFitting};
ghost use Rattle.bb_aig.specs.Graph.{inputs_of};
ghost use Rattle.bb_aig.specs.Gates.{IsMade};
ghost use Rattle.bb_words.specs.Words.{AreWords};
ghost use Rattle.bb_blast.specs.Choice.{InputsAreFirst, numbers_of, all_places};
ghost use Rattle.bb_blast.specs.Walk.{sources, values_by, widths_by, AreWidths, all_other_than_0};

use crate::inputs::add_sources;
use crate::places::Placed;
use crate::roots::{all_set, watched};
use crate::walk::blast_nodes;
use bb_aig::{Aig, Gates, Lit};
use fv_text::{List, Memory};
use std::alloc::Global;
use wn_net::{Node, NodeId};

/// A graph, and what its literals are of the nodes that it was made of.
#[derive(Debug, Drop)]
pub struct Blasted {
    pub graph: Aig,
    /// True where each root is other than 0.
    pub root: Lit,
    /// One for each input of the graph, in order.
    pub places: List<Placed>,
    /// The literals of each watched node, the lowest bit first.
    pub watch: List<List<Lit>>,
}

/// A graph with an input for each bit of each source, whose root is true exactly where all roots of the nodes are other
/// than 0.
pub fn blast(
    alloc: Global,
    widths: &[u32],
    nodes: &[Node],
    roots: &[NodeId],
    watch: &[NodeId],
) -> Result<Blasted, Memory>
    requires small { AreWidths widths.now }
    requires few { length widths.now < 2 ^ 32 }
    requires fitting { AreFitting (sources widths.now) [] nodes.now }
    requires roots { AllByRecursion (λ i. i < length nodes.now) roots.now }
    requires watch { AllByRecursion (λ i. i < length nodes.now) watch.now }
    ensures root { IfOk result (λ b. IsMade b.graph
        (λ x. all_other_than_0 (values_by widths.now nodes.now (numbers_of widths.now x)) roots.now) b.root) }
    ensures watch { IfOk result (λ b. AreWords b.graph
        (map (λ i. slice_index (widths_by widths.now nodes.now) i) watch.now)
        (λ x. map (λ i. slice_index (values_by widths.now nodes.now (numbers_of widths.now x)) i) watch.now)
        b.watch) }
    ensures places { IfOk result (λ b. b.places ≡ all_places 0 0 widths.now) }
    ensures inputs { IfOk result (λ b. inputs_of b.graph ≡ sum widths.now) }
    ensures first { IfOk result (λ b. InputsAreFirst b.graph) }
{
    let mut aig = Aig::new(alloc);
    let given = add_sources(alloc, &mut aig, widths)?;
    let mut gates = Gates::new(alloc, aig);
    let table = blast_nodes(alloc, &mut gates, nodes, given.words.as_slice())?;
    let root = all_set(&mut gates, table.as_slice(), roots)?;
    let watch = watched(alloc, table.as_slice(), watch)?;
    Ok(Blasted {
        graph: gates.into_graph(),
        root,
        places: given.places,
        watch,
    })
}
