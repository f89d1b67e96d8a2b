//! What is asked of the graph of the runs of a net: gates, its clauses by cuts, and numbers under choices.

ghost use Rattle.bm_unroll.specs.Frames.{IsFrames};

use crate::part::{numbers_from, word};
use crate::{models, show};
use bb_aig::{Aig, Lit};
use bb_blast::{Blasted, blast};
use bm_decide::RunClauses;
use fv_text::Memory;
use std::alloc::Global;

/// Writes the answer to a part, of the graph of the frames. Whether it fits them.
pub(crate) fn answer(
    alloc: Global,
    out: &mut String,
    made: &RunClauses,
    part: &str,
) -> Result<bool, Memory>
    requires { IsFrames made.now.frames }
{
    let widths = made.frames.widths.as_slice();
    let nodes = made.frames.nodes.as_slice();
    let roots = made.frames.roots.as_slice();
    let watched = made.frames.watch.as_slice();
    let blasted = blast(alloc, widths, nodes, roots, watched)?;
    match word(part, 0) {
        "gates" => put_gates(out, &blasted, made.encoded.formula.len())?,
        "cuts" => return models::put_counts(alloc, out, &blasted),
        "models" => return models::put_models(alloc, out, &blasted),
        _ => return run(
            alloc,
            out,
            &blasted,
            widths,
            numbers_from(alloc, part, 4)?.as_slice(),
        ),
    }
    Ok(true)
}

/// The literals of the watched node.
fn watched(blasted: &Blasted) -> &[Lit] {
    match blasted.watch.get(0) {
        Some(lits) => lits.as_slice(),
        None => &[],
    }
}

fn put_gates(out: &mut String, blasted: &Blasted, clauses: usize) -> Result<(), Memory> {
    let nodes = blasted.graph.len();
    write!(out, "{nodes} nodes, {clauses} clauses:")?;
    for lit in watched(blasted) {
        write!(out, " {lit}")?;
    }
    Ok(())
}

/// The bits of numbers of these widths, the lowest first.
fn bits(alloc: Global, widths: &[u32], numbers: &[u128]) -> Result<Vec<bool>, Memory> {
    let mut bits = Vec::new(alloc);
    for (index, width) in widths.iter().enumerate() {
        let mut left = numbers.get(index).copied().unwrap_or(0);
        for _ in 0..*width {
            bits.push(left % 2 == 1)?;
            left /= 2;
        }
    }
    Ok(bits)
}

/// Whether a literal is true where the nodes of a graph have these values.
pub(crate) fn is_true(values: &[bool], lit: Lit) -> bool {
    match values.get((lit / 2) as usize) {
        Some(value) => *value != (lit % 2 == 1),
        None => false,
    }
}

/// The values of a graph's nodes where sources of these widths have these numbers; None where these aren't as many.
pub(crate) fn values_of(
    alloc: Global,
    graph: &Aig,
    widths: &[u32],
    numbers: &[u128],
) -> Result<Option<Vec<bool>>, Memory> {
    let bits = bits(alloc, widths, numbers)?;
    if numbers.len() != widths.len() || bits.len() as u64 != graph.inputs() {
        return Ok(None);
    }
    let mut values = vec![in alloc; false; graph.len()]?;
    graph.eval(bits.as_slice(), values.as_mut_slice());
    Ok(Some(values))
}

/// Whether the root is true, and the number of the watched node, where sources have these numbers.
fn run(
    alloc: Global,
    out: &mut String,
    blasted: &Blasted,
    widths: &[u32],
    numbers: &[u128],
) -> Result<bool, Memory> {
    match values_of(alloc, &blasted.graph, widths, numbers)? {
        Some(values) => put_end(out, blasted, values.as_slice()),
        None => Ok(false),
    }
}

/// The root and the watched node where the nodes of the graph have these values.
fn put_end(out: &mut String, blasted: &Blasted, values: &[bool]) -> Result<bool, Memory> {
    write!(out, "{} ", is_true(values, blasted.root))?;
    show::put_number(out, number_of(values, watched(blasted)))?;
    Ok(true)
}

/// The number whose bits the literals are, the lowest first.
fn number_of(values: &[bool], lits: &[Lit]) -> u128 {
    let mut number = 0u128;
    for lit in lits.iter().rev() {
        number = number.wrapping_mul(2) | u128::from(is_true(values, *lit));
    }
    number
}
