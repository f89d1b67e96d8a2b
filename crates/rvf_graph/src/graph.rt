//! The graph of the runs of a net.

ghost use Rattle.std.specs.Prelude.{◌≡◌, ◌+◌, ◌≤◌, length, map, sum, IfOk};
ghost use Rattle.wn_net.specs.Net.{IsNode};
ghost use Rattle.bm_unroll.specs.Frames.{IsBadRun, IsWithin};
ghost use Rattle.bm_decide.specs.Verdicts.{Gives};
ghost use Rattle.rvfi_port.specs.Ports.{ArePortNodes};
ghost use Rattle.ck_ask.specs.Asked.{HasItsProbe, IsQuestion};
ghost use Rattle.ck_ask.specs.Questions.{question_cycle};
ghost use Rattle.rvf_graph.specs.RunGraphs.{IsGraphOfRuns, run_graph_of};

use bb_aig::{Aig, Lit};
use bb_blast::{Blasted, blast};
use bm_decide::ChoiceBits;
use bm_unroll::{Frames, unroll};
use ck_ask::{Question, ask};
use fv_text::Memory;
use rv_table::Opts;
use rvfi_port::Port;
use std::alloc::Global;
use wn_net::{Net, NodeId};

/// A graph over what may be chosen in the runs of a net.
#[derive(Debug, Drop)]
pub(crate) struct RunGraph {
    /// Which bit of which choice each input is.
    pub(crate) bits: ChoiceBits,
    pub(crate) graph: Aig,
    /// True exactly in the runs that are bad.
    pub(crate) root: Lit,
}

/// The graph that was made of frames.
fn run_graph(frames: Frames, blasted: Blasted) -> RunGraph
    ensures { result ≡ run_graph_of frames blasted }
{
    let Frames {
        sources,
        widths,
        ..
    } = frames;
    let Blasted {
        graph,
        root,
        places,
        ..
    } = blasted;
    let bits = ChoiceBits {
        sources,
        widths,
        places,
    };
    RunGraph { bits, graph, root }
}

/// The graph of a net's runs up to a cycle: its root is true exactly in the runs that meet the assumptions up to the
/// cycle and have the bad node other than 0 in it.
fn graph_of_runs(alloc: Global, net: &Net, bad: NodeId, cycle: u32) -> Result<RunGraph, Memory>
    requires bad { IsNode net.now bad }
    requires within { IsWithin net.now }
    requires cycle { cycle ≤ 100 }
    ensures { IfOk result (IsGraphOfRuns net.now cycle (IsBadRun net.now bad cycle)) }
{
    let frames = unroll(alloc, net, bad, &[], cycle)?;
    let widths = frames.widths.as_slice();
    let nodes = frames.nodes.as_slice();
    let roots = frames.roots.as_slice();
    let watched = frames.watch.as_slice();
    let blasted = blast(alloc, widths, nodes, roots, watched)?;
    let _ = blasted.graph.len();
    Ok(run_graph(frames, blasted))
}

/// The graph of the runs up to a question's cycle, whose root is true exactly in those that give what is sought.
pub(crate) fn graph_of(
    alloc: Global,
    net: &Net,
    port: &Port,
    question: &Question,
    opts: Opts,
) -> Result<RunGraph, Memory>
    requires port { ArePortNodes net.now port.now }
    requires question { IsQuestion (length port.now.channels) question.now }
    requires few { length port.now.channels ≤ 2 }
    requires probe { HasItsProbe port.now question.now }
    requires inputs { length net.now.inputs ≤ 1000000 }
    requires state { length net.now.regs + sum (map (λ m. m.words) net.now.mems) ≤ 50000000 }
    ensures { IfOk result (IsGraphOfRuns net.now (question_cycle question.now)
        (Gives net.now port.now question.now opts)) }
{
    let _ = net.nodes();
    let mut watched = net.copy()?;
    let bad = ask(alloc, &mut watched, port, question, opts)?;
    let _ = watched.nodes();
    graph_of_runs(alloc, &watched, bad, question.cycle())
}
