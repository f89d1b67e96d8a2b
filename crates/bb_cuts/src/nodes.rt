//! From nodes to clauses.
ghost use Rattle.std.specs.Prelude.{◌≡◌, ◌<◌, ◌^◌, [], length, map, slice_index, IfOk, IfSome};
ghost use Rattle.std.specs.List.{AllByRecursion};
ghost use Rattle.wn_net.specs.Width.{AreFitting};
ghost use Rattle.bb_blast.specs.Choice.{InputsAreFirst, all_places};
ghost use Rattle.bb_blast.specs.Walk.{sources, values_by, widths_by, AreWidths, all_other_than_0};
ghost use Rattle.bb_clauses.specs.Models.{ModelsAreNumbers, read_at};
ghost use Rattle.bb_cuts.specs.Variables.{TellsCuts};

use crate::network::{CutClauses, clauses_of_cuts};
use bb_aig::Lit;
use bb_blast::{Blasted, Placed, blast};
use bb_clauses::clauses_of;
use cnf_form::Formula;
use fv_text::{List, Memory};
use std::alloc::Global;
use wn_net::{Node, NodeId};

/// Clauses, and what their variables are of the nodes that they were made of.
#[derive(Debug, Drop)]
pub struct NodeClauses {
    pub formula: Formula,
    /// One for each bit of each source: the variable that it is, as the node of a graph.
    pub places: List<Placed>,
    /// The literals of each watched node, the lowest bit first: twice the number of a variable, and 1 more where it is
    /// negated; 0 is false and 1 is true.
    pub watch: List<List<Lit>>,
}

/// A graph with fewer gates than these has a variable for each: cuts save little there.
const FEW_GATES: u64 = 1000;

/// The clauses of cuts, for a graph that isn't small.
fn cuts_of(alloc: Global, blasted: &Blasted) -> Result<Option<CutClauses>, Memory>
    requires { InputsAreFirst blasted.now.graph }
    ensures { IfOk result (λ o. IfSome o (λ told. TellsCuts blasted.now.graph blasted.now.root blasted.now.watch
        told.words told.formula)) }
{
    let others = blasted.graph.inputs().saturating_add(1);
    let gates = (blasted.graph.len() as u64).saturating_sub(others);
    if gates < FEW_GATES {
        return Ok(None);
    }
    clauses_of_cuts(
        alloc,
        &blasted.graph,
        blasted.root,
        blasted.watch.as_slice(),
    )
}

/// The clauses of nodes and the verdict behind them: their models, read at the places, are exactly the numbers of the
/// sources for which all roots are other than 0, and without the verdict all numbers. Inputs of the graph have
/// variables, and of its gates, where there are many, those that a root, a watched bit or a leaf of another one's cut
/// is.
pub fn clauses_of_nodes(
    alloc: Global,
    widths: &[u32],
    nodes: &[Node],
    roots: &[NodeId],
    watch: &[NodeId],
) -> Result<NodeClauses, Memory>
    requires small { AreWidths widths.now }
    requires few { length widths.now < 2 ^ 32 }
    requires fitting { AreFitting (sources widths.now) [] nodes.now }
    requires roots { AllByRecursion (λ i. i < length nodes.now) roots.now }
    requires watch { AllByRecursion (λ i. i < length nodes.now) watch.now }
    ensures models { IfOk result (λ e. ModelsAreNumbers widths.now (read_at e.places widths.now)
        (λ numbers. all_other_than_0 (values_by widths.now nodes.now numbers) roots.now)
        (λ numbers. map (λ i. slice_index (values_by widths.now nodes.now numbers) i) watch.now) e.watch
        e.formula) }
    ensures places { IfOk result (λ e. e.places ≡ all_places 0 0 widths.now) }
    ensures watch { IfOk result (λ e. map length e.watch
        ≡ map (λ i. slice_index (widths_by widths.now nodes.now) i) watch.now) }
{
    let blasted = blast(alloc, widths, nodes, roots, watch)?;
    let _ = blasted.graph.len();
    if let Some(told) = cuts_of(alloc, &blasted)? {
        return Ok(NodeClauses {
            formula: told.formula,
            places: blasted.places,
            watch: told.words,
        });
    }
    let formula = clauses_of(alloc, &blasted.graph, blasted.root)?;
    Ok(NodeClauses {
        formula,
        places: blasted.places,
        watch: blasted.watch,
    })
}
