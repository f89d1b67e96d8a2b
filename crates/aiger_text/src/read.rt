ghost use Rattle.std.specs.Prelude.{◌≡◌, ℕ, None, IfOk, OnOk, IfErr};
ghost use Rattle.aiger_text.specs.declared.fault.AagFault.{AagFault};
ghost use Rattle.aiger_text.specs.Said.{Said, said_by};
ghost use Rattle.aiger_text.specs.Faults.{OnlyMemory};
ghost use Rattle.aiger_text.specs.Profile.{Answers, HasCause, IsOfProfile, IsReadGraph, IsRefusedBy};
ghost use Rattle.aiger_text.specs.Bodies.{Reads};
ghost use Rattle.aiger_text.specs.Wires.{successors, AreNodes, IsBuilt, IsLooped};
ghost use Rattle.aiger_text.specs.Circles.{IsOnCircle, IsFirstOnCircle};

use crate::body::{Body, read_body};
use crate::circles::first_on_circle;
use crate::fault::AagFault;
use crate::header::Sizes;
use crate::line::next_line;
use crate::wires::Wired;
use bb_aig::{Aig, Lit};
use fv_graph::{Walked, walk};
use fv_text::List;
use std::alloc::Global;

/// What a text says line by line.
fn read_text(alloc: Global, bytes: &[u8]) -> Result<Body, AagFault>
    ensures { Reads result (said_by bytes.now) }
{
    if bytes.is_empty() {
        return Err(AagFault::Header { line: 1 });
    }
    let (first, rest) = next_line(bytes);
    let Some(sizes) = Sizes::of_line(alloc, first)? else {
        return Err(AagFault::Header { line: 1 });
    };
    if !sizes.plain {
        return Err(AagFault::Kind { line: 1 });
    }
    read_body(alloc, sizes, 2, rest)
}

impl Wired {
    /// The graph and its root, or the line of the first gate that depends on itself.
    fn graph(&self, alloc: Global) -> Result<(Aig, Lit), AagFault>
        requires { AreNodes self.now.inputs self.now.root self.now.wires.items }
        ensures built { IfOk result (λ x. IsBuilt self.now.inputs self.now.root self.now.wires.items x.0 x.1) }
        ensures ordered { OnOk result (IsFirstOnCircle (successors self.now.inputs self.now.wires.items) None) }
        ensures looped { IfErr result (IsLooped self.now.inputs self.now.wires.items) }
    {
        let rows = self.successors(alloc)?;
        match walk(alloc, rows.as_slice())? {
            Walked::Order(order) => Ok(self.build(alloc, order.as_slice())?),
            Walked::Circle(_) => self.looped(alloc, rows.as_slice()),
        }
    }

    /// The line of the first gate that depends on itself.
    fn looped(&self, alloc: Global, rows: &[List<u32>]) -> Result<(Aig, Lit), AagFault>
        requires nodes { AreNodes self.now.inputs self.now.root self.now.wires.items }
        requires rows { rows.now ≡ successors self.now.inputs self.now.wires.items }
        requires circle { (i : ℕ) × IsOnCircle rows.now i }
        ensures failed { OnOk result ⊥ }
        ensures looped { IfErr result (IsLooped self.now.inputs self.now.wires.items) }
    {
        match first_on_circle(alloc, rows)? {
            Some(gate) => Err(AagFault::Loop {
                line: self.wires[gate].line,
            }),
            None => unreachable!(),
        }
    }
}

/// The graph of a text and its output, or why it has none.
fn read_graph(alloc: Global, bytes: &[u8]) -> Result<(Aig, Lit), AagFault>
    ensures { Answers IsReadGraph bytes.now result }
{
    let body = read_text(alloc, bytes)?;
    let wired = body.wired(alloc)?;
    wired.graph(alloc)
}

/// The graph of a text, and its output.
///
/// Words are parted by one blank and lines by LF; what stands behind the last gate isn't read. Gates stand in any
/// order. Nodes 1 to I of the graph are the inputs, in the order of their lines, whatever their variables are. Of the
/// refusals the first five are judged line by line, then the sixth and the seventh, each at its first line. More than
/// 2^32 - 1 variables want memory.
pub fn read_aag(alloc: Global, bytes: &[u8]) -> Result<(Aig, Lit), AagFault>
    ensures answers { Answers IsReadGraph bytes.now result }
    ensures refuses { (e : AagFault) → HasCause bytes.now e → IsRefusedBy e result }
    ensures reads { (said : Said) → IsOfProfile bytes.now said → OnlyMemory result }
{
    read_graph(alloc, bytes)
}
