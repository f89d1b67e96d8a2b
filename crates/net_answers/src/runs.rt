//! What is asked of the runs of a net: what may be chosen, and clauses.

ghost use Rattle.bm_unroll.specs.Frames.{IsFrames};

use crate::graph;
use crate::part::{node_at, short_at, word};
use bm_decide::{RunClauses, clauses_of_runs};
use bm_unroll::{Source, is_within};
use cnf_form::{Formula, clause_at};
use fv_text::Memory;
use std::alloc::Global;
use wn_net::Net;

/// Writes the answer to a part, of the clauses of the runs that it names. Whether it fits the net.
pub(crate) fn answer(
    alloc: Global,
    net: &Net,
    out: &mut String,
    part: &str,
) -> Result<bool, Memory> {
    let cycle = short_at(part, 1);
    let bad = node_at(part, 2);
    let node = node_at(part, 3);
    if cycle > 100 || !net.has(bad) || !net.has(node) || !is_within(net) {
        return Ok(false);
    }
    let made = clauses_of_runs(alloc, net, bad, &[node], cycle)?;
    put(alloc, out, &made, part)
}

fn put(alloc: Global, out: &mut String, made: &RunClauses, part: &str) -> Result<bool, Memory>
    requires { IsFrames made.now.frames }
{
    match word(part, 0) {
        "sources" => put_sources(out, made.frames.sources.as_slice())?,
        "places" => put_places(out, made)?,
        "clauses" => put_clauses(out, &made.encoded.formula)?,
        _ => return graph::answer(alloc, out, made, part),
    }
    Ok(true)
}

/// Before each part but the first.
fn put_comma(out: &mut String) -> Result<(), Memory> {
    if !out.is_empty() {
        out.push_str(", ")?;
    }
    Ok(())
}

/// An input by its number and its cycle, or by its number alone; a register; a word of a memory.
pub(crate) fn put_sources(out: &mut String, sources: &[Source]) -> Result<(), Memory> {
    for source in sources {
        put_comma(out)?;
        match source {
            Source::Each(input, cycle) => write!(out, "input {input} of {cycle}")?,
            Source::Once(input) => write!(out, "input {input}")?,
            Source::RegStart(reg) => write!(out, "register {reg}")?,
            Source::WordStart(mem, word) => write!(out, "word {word} of {mem}")?,
        }
    }
    Ok(())
}

/// The number of a source, a bit of it, and the node of the graph that is this bit.
fn put_places(out: &mut String, made: &RunClauses) -> Result<(), Memory> {
    for place in made.encoded.places.as_slice() {
        put_comma(out)?;
        write!(out, "{}.{} {}", place.source, place.bit, place.node)?;
    }
    Ok(())
}

fn put_clauses(out: &mut String, formula: &Formula) -> Result<(), Memory> {
    write!(out, "{} variables", formula.vars())?;
    for index in 0..formula.len() {
        out.push_str(":")?;
        for lit in clause_at(formula, index) {
            write!(out, " {lit}")?;
        }
    }
    Ok(())
}
