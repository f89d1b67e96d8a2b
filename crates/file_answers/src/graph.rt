//! Graphs as texts for other engines.

use aiger_text::{AagFault, aag, read_aag};
use bb_aig::{Aig, Lit};
use certificate_answers::{parted, put_escaped};
use fv_lines::number_up_to;
use fv_text::{Memory, Text};
use std::alloc::Global;

/// The output's values are told for at most so many inputs.
const MOST_INPUTS: u64 = 6;

/// A graph's inputs and gates, its output for all values of the inputs, the first one changing with each, and its text
/// with the names `x0`, `x1` and so on; or the number and the line of the refusal.
pub(crate) fn put_reading(alloc: Global, out: &mut String, text: &[u8]) -> Result<(), Memory> {
    match read_aag(alloc, text) {
        Ok((aig, root)) => put_graph(alloc, out, &aig, root),
        Err(fault) => put_fault(out, fault),
    }
}

fn put_fault(out: &mut String, fault: AagFault) -> Result<(), Memory> {
    write!(out, "{} {}", fault.number(), line_of(fault))?;
    Ok(())
}

/// The line of a refusal, 0 where it has none.
fn line_of(fault: AagFault) -> u32 {
    match fault {
        AagFault::Header { line }
        | AagFault::Kind { line }
        | AagFault::Literal { line }
        | AagFault::Twice { line }
        | AagFault::Open { line }
        | AagFault::Undefined { line }
        | AagFault::Loop { line } => line,
        AagFault::Memory => 0,
    }
}

fn put_graph(alloc: Global, out: &mut String, aig: &Aig, root: Lit) -> Result<(), Memory> {
    let inputs = aig.inputs();
    let gates = (aig.len() as u64).saturating_sub(inputs).saturating_sub(1);
    write!(out, "inputs {inputs} gates {gates} output ")?;
    put_outputs(alloc, out, aig, root)?;
    out.push(' ')?;
    let names = names_of(alloc, inputs)?;
    put_escaped(out, aag(alloc, aig, root, names.as_slice())?.as_slice())
}

fn names_of(alloc: Global, inputs: u64) -> Result<Vec<Text>, Memory> {
    let mut names = Vec::new(alloc);
    for number in 0..inputs {
        let name = format!(in alloc; "x{number}")?;
        names.push(Text::from_bytes(alloc, name.as_bytes())?)?;
    }
    Ok(names)
}

fn put_outputs(alloc: Global, out: &mut String, aig: &Aig, root: Lit) -> Result<(), Memory> {
    let inputs = aig.inputs();
    if inputs > MOST_INPUTS {
        out.push('-')?;
        return Ok(());
    }
    for number in 0..(1u32 << (inputs as u32)) {
        out.push(if output_at(alloc, aig, root, number)? {
            '1'
        } else {
            '0'
        })?;
    }
    Ok(())
}

/// The output, where the inputs are the bits of the number, the first one the lowest.
fn output_at(alloc: Global, aig: &Aig, root: Lit, number: u32) -> Result<bool, Memory> {
    let mut given = vec![in alloc; false; aig.inputs() as usize]?;
    put_bits(given.as_mut_slice(), number);
    let mut values = vec![in alloc; false; aig.len()]?;
    aig.eval(given.as_slice(), values.as_mut_slice());
    Ok(match values.get((root / 2) as usize) {
        Some(value) => *value != (root % 2 == 1),
        None => false,
    })
}

fn put_bits(given: &mut [bool], number: u32) {
    let mut rest = number;
    for value in given.iter_mut() {
        *value = rest % 2 == 1;
        rest /= 2;
    }
}

/// How many nodes a large graph has, or its refusal, from `KIND|GATES`: a chain of gates, each of which needs the next
/// line's; a circle of them; or a chain between two circles.
pub(crate) fn put_large(alloc: Global, out: &mut String, text: &[u8]) -> Result<(), Memory> {
    let (kind, gates) = parted(text);
    let gates = number_up_to(gates, 1000000).unwrap_or(0);
    let text = large(alloc, kind, gates)?;
    match read_aag(alloc, text.as_bytes()) {
        Ok((aig, _)) => put_nodes(out, &aig),
        Err(fault) => put_fault(out, fault),
    }
}

fn put_nodes(out: &mut String, aig: &Aig) -> Result<(), Memory> {
    write!(out, "{} nodes", aig.len())?;
    Ok(())
}

fn large(alloc: Global, kind: &[u8], gates: u64) -> Result<String, Memory> {
    let mut text = String::new(alloc);
    match kind {
        b"chain" => {
            put_head(&mut text, gates)?;
            put_chain(&mut text, 0, gates)?;
        }
        b"circle" => {
            put_head(&mut text, gates.saturating_add(1))?;
            put_chain(&mut text, 1, gates)?;
            put_gate(&mut text, 1, gates.saturating_add(1))?;
        }
        _ => {
            put_head(&mut text, gates.saturating_add(4))?;
            put_chain(&mut text, 2, gates)?;
            put_gate(&mut text, 1, 2)?;
            put_gate(&mut text, 2, 1)?;
            put_closing(&mut text, gates.saturating_add(3))?;
        }
    }
    Ok(text)
}

/// The header, one input, and the last gate as the output.
fn put_head(text: &mut String, gates: u64) -> Result<(), Memory> {
    write!(text, "aag {} 1 0 1 {gates}\n2\n", gates.saturating_add(1))?;
    write!(text, "{}\n", literal_of(gates))?;
    Ok(())
}

/// The literal of a gate by its number from 1; that of the input for 0.
fn literal_of(gate: u64) -> u64 {
    gate.saturating_add(1).saturating_mul(2)
}

/// The line of a gate that needs another gate and the input.
fn put_gate(text: &mut String, gate: u64, needs: u64) -> Result<(), Memory> {
    write!(text, "{} {} 2\n", literal_of(gate), literal_of(needs))?;
    Ok(())
}

/// So many gates behind this one, the last first, each of which needs the one before it.
fn put_chain(text: &mut String, first: u64, gates: u64) -> Result<(), Memory> {
    for step in 0..gates {
        let gate = first.saturating_add(gates).saturating_sub(step);
        put_gate(text, gate, gate.saturating_sub(1))?;
    }
    Ok(())
}

/// Two gates that need each other, of which the first needs the gate before it too.
fn put_closing(text: &mut String, gate: u64) -> Result<(), Memory> {
    let before = literal_of(gate.saturating_sub(1));
    let behind = literal_of(gate.saturating_add(1));
    write!(text, "{} {} {}\n", literal_of(gate), behind, before)?;
    put_gate(text, gate.saturating_add(1), gate)
}
