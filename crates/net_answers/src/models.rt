//! Clauses of cuts under all values of their variables.

ghost use Rattle.bb_blast.specs.Choice.{InputsAreFirst};

use crate::graph::is_true;
use bb_aig::{Aig, Lit};
use bb_blast::Blasted;
use bb_cuts::{CutClauses, clauses_of_cuts};
use cnf_form::{Formula, clause_at};
use fv_text::{List, Memory};
use std::alloc::Global;

/// With more variables than these not all values are tried.
const MOST_VARIABLES: u64 = 18;

/// How many values of all variables make the clauses before the last true, and how many of them have the root and the
/// watched bits as the graph has them for the same inputs.
#[derive(Clone, Copy)]
struct Models {
    all: u64,
    same: u64,
}

/// Writes how many variables and clauses the graph comes to by cuts. Whether cuts were found.
pub(crate) fn put_counts(alloc: Global, out: &mut String, blasted: &Blasted) -> Result<bool, Memory>
    requires { InputsAreFirst blasted.now.graph }
{
    let watch = blasted.watch.as_slice();
    let Some(told) = clauses_of_cuts(alloc, &blasted.graph, blasted.root, watch)? else {
        return Ok(false);
    };
    let vars = told.formula.vars();
    let clauses = told.formula.len();
    write!(out, "{vars} variables, {clauses} clauses")?;
    Ok(true)
}

/// Writes how many models the clauses by cuts before the last have, and in how many the root and the watched bits are
/// as the graph has them. Whether cuts were found, and variables are few.
pub(crate) fn put_models(alloc: Global, out: &mut String, blasted: &Blasted) -> Result<bool, Memory>
    requires { InputsAreFirst blasted.now.graph }
{
    let watch = blasted.watch.as_slice();
    let Some(told) = clauses_of_cuts(alloc, &blasted.graph, blasted.root, watch)? else {
        return Ok(false);
    };
    if told.formula.vars() > MOST_VARIABLES {
        return Ok(false);
    }
    let found = tried(alloc, blasted, &told)?;
    write!(out, "{} models, {} as the graph", found.all, found.same)?;
    Ok(true)
}

/// The models among all values of the variables.
fn tried(alloc: Global, blasted: &Blasted, told: &CutClauses) -> Result<Models, Memory> {
    let mut found = Models { all: 0, same: 0 };
    for turn in 0..1u64 << (told.formula.vars() % 64) {
        let values = values_of(alloc, &told.formula, turn)?;
        if is_model(&told.formula, values.as_slice()) {
            let same = is_same(alloc, blasted, told, values.as_slice())?;
            found.all = found.all.saturating_add(1);
            found.same = found.same.saturating_add(u64::from(same));
        }
    }
    Ok(found)
}

/// The values of the variables by the bits of a number; that of variable 0, which is false, stands first.
fn values_of(alloc: Global, formula: &Formula, number: u64) -> Result<Vec<bool>, Memory> {
    let mut values = Vec::new(alloc);
    values.push(false)?;
    let mut left = number;
    for _ in 0..formula.vars() {
        values.push(left % 2 == 1)?;
        left /= 2;
    }
    Ok(values)
}

/// Whether these values make all clauses before the last true.
fn is_model(formula: &Formula, values: &[bool]) -> bool {
    for index in 0..formula.len().saturating_sub(1) {
        if !is_clause_true(clause_at(formula, index), values) {
            return false;
        }
    }
    true
}

fn is_clause_true(clause: &[i64], values: &[bool]) -> bool {
    for lit in clause {
        let value = values
            .get(lit.unsigned_abs() as usize)
            .copied()
            .unwrap_or(false);
        if value == (*lit > 0) {
            return true;
        }
    }
    false
}

/// Whether the last variable is the root, and the literals of the watched bits are these bits, for the same inputs.
fn is_same(
    alloc: Global,
    blasted: &Blasted,
    told: &CutClauses,
    values: &[bool],
) -> Result<bool, Memory> {
    let nodes = nodes_of(alloc, &blasted.graph, values)?;
    let last = values.last().copied().unwrap_or(false);
    let root = is_true(nodes.as_slice(), blasted.root);
    let watch = bits_of(alloc, nodes.as_slice(), blasted.watch.as_slice())?;
    let words = bits_of(alloc, values, told.words.as_slice())?;
    Ok(last == root && words.as_slice() == watch.as_slice())
}

/// The values of a graph's nodes, where input `i` is variable `i + 1`.
fn nodes_of(alloc: Global, graph: &Aig, values: &[bool]) -> Result<Vec<bool>, Memory> {
    let mut given = Vec::new(alloc);
    for index in 0..graph.inputs() {
        let place = (index as usize).saturating_add(1);
        given.push(values.get(place).copied().unwrap_or(false))?;
    }
    let mut nodes = vec![in alloc; false; graph.len()]?;
    if given.len() as u64 == graph.inputs() {
        graph.eval(given.as_slice(), nodes.as_mut_slice());
    }
    Ok(nodes)
}

/// The values of the literals of words.
fn bits_of(alloc: Global, values: &[bool], words: &[List<Lit>]) -> Result<Vec<bool>, Memory> {
    let mut bits = Vec::new(alloc);
    for word in words {
        for lit in word.as_slice() {
            bits.push(is_true(values, *lit))?;
        }
    }
    Ok(bits)
}
