//! The text of a question's graph.

ghost use Rattle.std.specs.Prelude.{◌≡◌, ◌+◌, ◌≤◌, ℕ, List, length, map, sum, IfOk};
ghost use Rattle.vl_mean.specs.Parts.{Part};
ghost use Rattle.bb_aig.specs.Graph.{IsLit};
ghost use Rattle.rvfi_port.specs.declared.port.Wants.{Wants};
ghost use Rattle.rvfi_port.specs.Ports.{ArePortNodes};
ghost use Rattle.ck_ask.specs.Asked.{HasItsProbe, IsQuestion};
ghost use Rattle.ck_design.specs.Loaded.{IsLoaded};
ghost use Rattle.rvf_graph.specs.GraphTexts.{TellsRuns};
ghost use Rattle.rvf_graph.specs.RunGraphs.{IsTextOf};

use crate::bit_name::bit_names;
use crate::graph::{RunGraph, graph_of};
use aiger_text::aag;
use ck_ask::Question;
use fv_text::{Memory, Text};
use rv_table::Opts;
use rvf_judge::choice_notes;
use rvfi_port::Port;
use std::alloc::Global;
use wn_net::{Names, Net};

/// The text of a graph, and how many inputs and gates its header says.
#[derive(Debug, Drop)]
pub struct GraphText {
    pub text: Text,
    pub inputs: u64,
    pub gates: u64,
}

/// The text of a graph, with a name for each input.
fn written(alloc: Global, names: &Names, made: &RunGraph) -> Result<GraphText, Memory>
    requires { IsLit made.now.graph made.now.root }
    ensures { IfOk result (IsTextOf names.now made.now) }
{
    let sources = made.bits.sources.as_slice();
    let places = made.bits.places.as_slice();
    let notes = choice_notes(alloc, names, sources, places)?;
    let lines = bit_names(alloc, notes.as_slice())?;
    let bytes = aag(alloc, &made.graph, made.root, lines.as_slice())?;
    let inputs = made.graph.inputs();
    let nodes = made.graph.len() as u64;
    Ok(GraphText {
        text: Text::from_vec(bytes),
        inputs,
        gates: nodes - 1 - inputs,
    })
}

/// The graph of a question as a text in the ASCII format AIGER, said of the design that the net is loaded from: its
/// output is 1 exactly where the bits that its inputs name are those of a run that gives what is sought.
///
/// The inputs are bits that are chosen in the runs up to the question's cycle, and each list of values of them is
/// that of a run. A bit that no node depends on may have no input.
pub fn graph_text(
    alloc: Global,
    net: &Net,
    names: &Names,
    port: &Port,
    question: &Question,
    opts: Opts,
) -> Result<GraphText, Memory>
    requires port { ArePortNodes net.now port.now }
    requires question { IsQuestion (length port.now.channels) question.now }
    requires few { length port.now.channels ≤ 2 }
    requires probe { HasItsProbe port.now question.now }
    requires inputs { length net.now.inputs ≤ 1000000 }
    requires state { length net.now.regs + sum (map (λ m. m.words) net.now.mems) ≤ 50000000 }
    ensures { (ps : List Part) (channels : ℕ) (wants : Wants)
        → IsLoaded ps net.now names.now channels wants port.now
        → IfOk result (TellsRuns ps channels wants question.now opts) }
{
    let _ = net.nodes();
    let made = graph_of(alloc, net, port, question, opts)?;
    written(alloc, names, &made)
}
