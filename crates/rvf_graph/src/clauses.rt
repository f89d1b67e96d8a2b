//! From the text of a graph to the text of its clauses.
ghost use Rattle.std.specs.Prelude.{IfOk};
ghost use Rattle.aiger_text.specs.declared.fault.AagFault.{AagFault};
ghost use Rattle.aiger_text.specs.Faults.{OnlyMemory};
ghost use Rattle.aiger_text.specs.Profile.{Answers, HasCause, IsOfProfile, IsRefusedBy};
ghost use Rattle.aiger_text.specs.Said.{Said};
ghost use Rattle.bb_aig.specs.Graph.{IsLit};
ghost use Rattle.rvf_graph.specs.Clauses.{AreMade, IsEncoded};

use aiger_text::{AagFault, read_aag};
use bb_aig::{Aig, Lit};
use bb_clauses::clauses_of;
use cnf_text::dimacs;
use fv_text::{Memory, Text};
use std::alloc::Global;

/// What the text of a graph comes to.
#[derive(Debug, Drop)]
pub struct GraphClauses {
    /// How many inputs the graph has. They are the variables from 1 on, in the order of their lines.
    pub inputs: u64,
    /// How many gates it has.
    pub gates: u64,
    /// The clauses of the graph in DIMACS, without a comment.
    pub clauses: Text,
}

/// The clauses of a graph with a root.
#[tactic(auto, using(crate::proofs::GraphLaws::inputs_within))]
fn encoded(alloc: Global, aig: &Aig, root: Lit) -> Result<GraphClauses, Memory>
    requires { IsLit aig.now root }
    ensures { IfOk result (IsEncoded aig.now root) }
{
    let nodes = aig.len() as u64;
    let inputs = aig.inputs();
    let formula = clauses_of(alloc, aig, root)?;
    let text = dimacs(alloc, &formula, &[])?;
    Ok(GraphClauses {
        inputs,
        gates: nodes - 1 - inputs,
        clauses: Text::from_vec(text),
    })
}

/// What the text of a graph comes to.
fn graph_clauses(alloc: Global, bytes: &[u8]) -> Result<GraphClauses, AagFault>
    ensures { Answers AreMade bytes.now result }
{
    let (aig, root) = read_aag(alloc, bytes)?;
    let made = encoded(alloc, &aig, root)?;
    Ok(made)
}

/// The clauses of the graph that a text says, or why it says none: the refusals are those of `read_aag`.
///
/// Variable `k + 1` is input `k`, whatever number its variable has in the text. The clauses before the last have one
/// model for each list of values of the inputs. The last clause is one variable, which has the output's value there.
pub fn clauses_of_text(alloc: Global, bytes: &[u8]) -> Result<GraphClauses, AagFault>
    ensures answers { Answers AreMade bytes.now result }
    ensures refuses { (e : AagFault) → HasCause bytes.now e → IsRefusedBy e result }
    ensures reads { (said : Said) → IsOfProfile bytes.now said → OnlyMemory result }
{
    graph_clauses(alloc, bytes)
}
