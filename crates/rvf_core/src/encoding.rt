//! `fromaig AAG CNF`

ghost use Rattle.std.specs.Prelude.{◌≡◌, ◌≤◌, [], ◌∷◌, IfOk};
ghost use Rattle.fv_base.specs.Outside.{SameFiles};
ghost use Rattle.rvf_case.specs.Hearing.{AreReadOn, HeardMore};
ghost use Rattle.rvf_report.specs.declared.delivery.Delivery.TheVariants.{File, Line};
ghost use Rattle.rvf_report.specs.declared.status.Status.TheVariants.{Passed};
ghost use Rattle.rvf_core.specs.Encodes as encodes;
ghost use Rattle.rvf_core.specs.Steps.{EncodesFor, IsEncodingOf, TellsReads, wants_memory};

use crate::certificate::line_of_two;
use crate::certifying::unread;
use crate::report::Report;
use aiger_text::AagFault;
use fv_base::Files;
use fv_text::{List, Memory, Text};
use itoa::Buffer;
use rvf_graph::clauses_of_text;
use rvf_report::{Delivery, Status, put_end, put_word};
use std::alloc::Global;

/// The line of the graph's text, 0 where there is none.
fn line_in_aag(fault: AagFault) -> u32
    ensures { result ≡ encodes.line_in_aag fault }
{
    match fault {
        AagFault::Header { line }
        | AagFault::Kind { line }
        | AagFault::Literal { line }
        | AagFault::Twice { line }
        | AagFault::Open { line }
        | AagFault::Undefined { line }
        | AagFault::Loop { line } => line,
        AagFault::Memory => 0,
    }
}

/// Whether memory was wanted, and the text isn't refused.
fn wants_memory(fault: AagFault) -> bool
    ensures { result ≡ wants_memory fault }
{
    match fault {
        AagFault::Header { .. }
        | AagFault::Kind { .. }
        | AagFault::Literal { .. }
        | AagFault::Twice { .. }
        | AagFault::Open { .. }
        | AagFault::Undefined { .. }
        | AagFault::Loop { .. } => false,
        AagFault::Memory => true,
    }
}

fn aag_line(alloc: Global, fault: AagFault) -> Result<Text, Memory>
    ensures { IfOk result (λ line. line ≡ encodes.aag_line fault) }
{
    line_of_two(alloc, b"refused aiger", fault.number(), line_in_aag(fault))
}

/// The line of a graph with so many inputs and gates.
fn graph_line(alloc: Global, inputs: u64, gates: u64) -> Result<Text, Memory>
    ensures { IfOk result (λ line. line ≡ encodes.graph_line inputs gates) }
{
    let mut buffer = Buffer::new();
    let mut line = Vec::new(alloc);
    put_word(&mut line, b"aiger")?;
    put_word(&mut line, buffer.format(inputs).as_bytes())?;
    put_end(&mut line, buffer.format(gates).as_bytes())?;
    Ok(Text::from_vec(line))
}

/// A text as the file of this name, and behind it the line of the graph that it is made of or says.
pub(crate) fn with_file(
    alloc: Global,
    file: &[u8],
    bytes: Text,
    inputs: u64,
    gates: u64,
) -> Result<Report, Memory>
    ensures status { IfOk result (λ report. report.status ≡ Passed) }
    ensures deliveries { IfOk result (λ report. report.deliveries
        ≡ File file.now bytes ∷ (Line (encodes.graph_line inputs gates) ∷ [])) }
{
    let line = graph_line(alloc, inputs, gates)?;
    let name = Text::from_bytes(alloc, file)?;
    let mut deliveries = List::new(alloc);
    deliveries.push(Delivery::File { name, bytes })?;
    deliveries.push(Delivery::Line(line))?;
    Ok(Report {
        status: Status::Passed,
        deliveries,
    })
}

/// What the text of a graph comes to: the file of its clauses and its line, or the line of the refusal.
fn encoded(alloc: Global, bytes: &[u8], cnf: &[u8]) -> Result<Report, Memory>
    ensures { IfOk result (IsEncodingOf bytes.now cnf.now) }
{
    match clauses_of_text(alloc, bytes) {
        Ok(made) => with_file(alloc, cnf, made.clauses, made.inputs, made.gates),
        Err(fault) => {
            if wants_memory(fault) {
                return Err(Memory);
            }
            let line = aag_line(alloc, fault)?;
            Report::of_line(alloc, Status::Refused, line)
        }
    }
}

/// `fromaig AAG CNF`
pub(crate) fn encode<F: Files>(
    alloc: Global,
    aag: &[u8],
    cnf: &[u8],
    files: &mut F,
) -> Result<Report, Memory>
    ensures says { IfOk result (EncodesFor aag.now cnf.now (F.state files.old) (F.state files.new)) }
    ensures read_on { HeardMore (F.state files.old).heard (F.state files.new).heard (AreReadOn (aag.now ∷ [])) }
    ensures kept { SameFiles (F.state files.old).held (F.state files.new).held }
    ensures unwritten { (F.state files.new).written ≡ (F.state files.old).written }
    ensures misses_grow { (F.state files.old).misses ≤ (F.state files.new).misses }
    ensures faults_grow { (F.state files.old).faults ≤ (F.state files.new).faults }
    ensures told { IfOk result (λ report. TellsReads report (F.state files.old).faults (F.state files.new).faults) }
{
    match files.read(alloc, aag) {
        Ok(bytes) => encoded(alloc, bytes.as_slice(), cnf),
        Err(fault) => unread(alloc, aag, fault),
    }
}
