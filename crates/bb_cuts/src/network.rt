//! A variable for each node that is needed, and the clauses of its table.
ghost use Rattle.std.specs.Prelude.{
  ◌≡◌,
  ℕ,
  ◌+◌,
  ◌≤◌,
  ◌<◌,
  ◌^◌,
  Bool,
  length,
  slice_index_or,
  List,
  IfOk,
  IfSome,
  IsTrue,
  OnOk,
  ◌++◌,
};
ghost use Rattle.std.specs.Bool.{OnTrue};
ghost use Rattle.bb_aig.specs.Graph.{IsGraph};
ghost use Rattle.bb_aig.specs.declared.node.AigNode.{AigNode};
ghost use Rattle.bb_blast.specs.Choice.{InputsAreFirst};
ghost use Rattle.bb_cuts.specs.Covers.{both_clauses};
ghost use Rattle.bb_cuts.specs.Covers.{IsCover};
ghost use Rattle.bb_cuts.specs.declared.leaves.Leaves.{Leaves};
ghost use Rattle.bb_cuts.specs.Variables.{AreTold, IsTable, TellsCuts};

use crate::clause::push_cover;
use crate::cone::{Mark, table_of};
use crate::cube::{Rows, cover_rows, other_rows};
use crate::cuts::{Cell, cells_of, cone_of};
use crate::leaves::Leaves;
use crate::primes::{Cover, Covers};
use crate::variables::{literal_of, variables_of, words_of};
use bb_aig::{Aig, Lit};
use bb_clauses::{push_and, push_true};
use cnf_form::Formula;
use fv_text::{List, Memory};
use std::alloc::Global;

/// Clauses over variables that are nodes of a graph, and the literals of these variables that words of the graph are.
#[derive(Debug, Drop)]
pub struct CutClauses {
    pub formula: Formula,
    /// As in a graph: twice the number of a variable, and 1 more where it is negated; 0 is false and 1 is true.
    pub words: List<List<Lit>>,
}

/// What is filled for each cell anew, and guesses at the variables of nodes.
#[derive(Debug, Drop)]
struct Room {
    covers: Covers,
    /// For each node the variable that it is.
    guesses: Vec<u64>,
    cone: Vec<u64>,
    marks: Vec<Mark>,
}

/// At most so many variables, so that literals stay below `2^63`.
const MOST_VARIABLES: u64 = 1 << 62;

/// The nodes of the first variables: variable 0 is node 0, and variable `i + 1` is input `i`.
fn first_nodes(alloc: Global, inputs: u64) -> Result<Vec<u64>, Memory>
    requires { inputs ≤ 2 ^ 62 }
    ensures count { IfOk result (λ nodes. length nodes.items ≡ inputs + 1) }
    ensures each { IfOk result (λ nodes. (k : ℕ) → k ≤ inputs → slice_index_or nodes.items k 0 ≡ k) }
{
    let mut nodes = Vec::new(alloc);
    for index in 0..inputs + 1 {
        nodes.push(index)?;
    }
    Ok(nodes)
}

/// Whether the cubes of a cover have the rows of a table, and the others.
fn covers_table(cover: &Cover, table: Rows) -> bool
    ensures { OnTrue result ((value : ℕ → Bool) (leaves : Leaves)
        → IsCover value leaves cover.now.on.items cover.now.off.items table) }
{
    let on = cover_rows(cover.on.as_slice());
    let off = cover_rows(cover.off.as_slice());
    on == table && off == other_rows(table)
}

/// Says that a variable is true in the rows of some cubes, and false in those of others.
fn push_covers(
    alloc: Global,
    formula: &mut Formula,
    var: u64,
    vars: &Leaves,
    cover: &Cover,
) -> Result<(), Memory>
    requires first { vars.now.first < formula.old.vars }
    requires second { vars.now.second < formula.old.vars }
    requires third { vars.now.third < formula.old.vars }
    requires fourth { vars.now.fourth < formula.old.vars }
    requires var { var ≤ formula.old.vars }
    requires few { formula.old.vars ≤ 2 ^ 62 }
    ensures clauses { OnOk result (formula.new.clauses
        ≡ formula.old.clauses ++ both_clauses vars.now var cover.now.on.items cover.now.off.items) }
    ensures vars { formula.new.vars ≡ formula.old.vars }
{
    push_cover(alloc, formula, vars, 2 * var, cover.on.as_slice())?;
    push_cover(alloc, formula, vars, 2 * var + 1, cover.off.as_slice())?;
    Ok(())
}

/// Keeps which variable a node is.
fn note(guesses: &mut [u64], node: u64, var: u64) {
    if let Some(slot) = guesses.get_mut(node as usize) {
        *slot = var;
    }
}

/// The table of a cell, with the place of a cover for it.
fn tabled(aig: &Aig, room: &mut Room, cell: &Cell) -> Result<Option<(Rows, usize)>, Memory>
    ensures { IfOk result (λ o. IfSome o (λ t. IsTable aig.now cell.now.leaves cell.now.node t.0)) }
{
    cone_of(aig, cell, &mut room.cone)?;
    let cone = room.cone.as_slice();
    let found = table_of(aig, &mut room.marks, &cell.leaves, cone, cell.node)?;
    let Some(table) = found else {
        return Ok(None);
    };
    let place = room.covers.place_of(table)?;
    Ok(Some((table, place)))
}

/// Adds a variable for the node of a cell, with the clauses of its table. Whether the cell could be told; where it
/// couldn't, nothing is known.
fn add_cell(
    alloc: Global,
    aig: &Aig,
    formula: &mut Formula,
    nodes: &mut Vec<u64>,
    room: &mut Room,
    cell: &Cell,
) -> Result<bool, Memory>
    requires few { formula.old.vars ≤ 2 ^ 62 }
    ensures vars { formula.new.vars ≡ formula.old.vars }
    ensures told { IfOk result (λ done. IsTrue done → AreTold aig.now nodes.old.items formula.old.clauses
        → AreTold aig.now nodes.new.items formula.new.clauses) }
{
    let var = nodes.len() as u64;
    if var > formula.vars() {
        return Ok(false);
    }
    let Some((table, place)) = tabled(aig, room, cell)? else {
        return Ok(false);
    };
    let named = variables_of(nodes.as_slice(), room.guesses.as_slice(), &cell.leaves);
    let Some(vars) = named else {
        return Ok(false);
    };
    let Some(cover) = room.covers.cover(place) else {
        return Ok(false);
    };
    if !covers_table(cover, table) {
        return Ok(false);
    }
    push_covers(alloc, formula, var, &vars, cover)?;
    nodes.push(cell.node)?;
    note(room.guesses.as_mut_slice(), cell.node, var);
    Ok(true)
}

/// Adds all cells.
fn add_cells(
    alloc: Global,
    aig: &Aig,
    formula: &mut Formula,
    nodes: &mut Vec<u64>,
    room: &mut Room,
    cells: &[Cell],
) -> Result<bool, Memory>
    requires few { formula.old.vars ≤ 2 ^ 62 }
    ensures vars { formula.new.vars ≡ formula.old.vars }
    ensures told { IfOk result (λ done. IsTrue done → AreTold aig.now nodes.old.items formula.old.clauses
        → AreTold aig.now nodes.new.items formula.new.clauses) }
{
    for cell in cells {
        let done = add_cell(alloc, aig, formula, nodes, room, cell)?;
        if !done {
            return Ok(false);
        }
    }
    Ok(true)
}

/// Puts the verdict behind the clauses of all variables.
fn finish(
    alloc: Global,
    mut formula: Formula,
    nodes: &[u64],
    guesses: &[u64],
    root: Lit,
    watch: &[List<Lit>],
) -> Result<Option<CutClauses>, Memory>
    requires few { formula.vars ≤ 2 ^ 62 }
    ensures { IfOk result (λ o. IfSome o (λ told. (graph : List AigNode) → IsGraph graph
        → AreTold graph nodes.now formula.clauses → TellsCuts graph root watch.now told.words told.formula)) }
{
    let var = nodes.len() as u64;
    if var == 0 || var != formula.vars() {
        return Ok(None);
    }
    let Some(own) = literal_of(nodes, guesses, root) else {
        return Ok(None);
    };
    let Some(words) = words_of(alloc, nodes, guesses, watch)? else {
        return Ok(None);
    };
    push_and(alloc, &mut formula, 2 * var, own, 1)?;
    push_true(&mut formula, var)?;
    Ok(Some(CutClauses { formula, words }))
}

/// Room for a graph of so many nodes. The first variables have the numbers of their nodes.
fn room_of(alloc: Global, covers: Covers, nodes: usize, inputs: u64) -> Result<Room, Memory> {
    let mut guesses = vec![in alloc; 0u64; nodes]?;
    for index in 0..inputs.saturating_add(1) {
        note(guesses.as_mut_slice(), index, index);
    }
    Ok(Room {
        covers,
        guesses,
        cone: Vec::new(alloc),
        marks: Vec::new(alloc),
    })
}

/// The clauses of a graph, with a variable for each input and for each gate that is needed: the root, a watched bit, or
/// a leaf of a cut that another one is told by. They are true exactly where each variable has the value of its node,
/// and the last variable that of the root. Inputs have the first numbers, then gates in the order of the graph. None
/// where a guess at the cuts was wrong.
pub fn clauses_of_cuts(
    alloc: Global,
    aig: &Aig,
    root: Lit,
    watch: &[List<Lit>],
) -> Result<Option<CutClauses>, Memory>
    requires { InputsAreFirst aig.now }
    ensures { IfOk result (λ o. IfSome o (λ told. TellsCuts aig.now root watch.now told.words told.formula)) }
{
    let inputs = aig.inputs();
    let mut covers = Covers::new(alloc)?;
    let cells = cells_of(alloc, aig, &mut covers, root, watch)?;
    if inputs > MOST_VARIABLES / 4 || cells.len() as u64 > MOST_VARIABLES / 4 {
        return Ok(None);
    }
    let mut nodes = first_nodes(alloc, inputs)?;
    let mut formula = Formula::new(alloc, inputs + 1 + cells.len() as u64);
    let mut room = room_of(alloc, covers, aig.len(), inputs)?;
    let all = cells.as_slice();
    let done = add_cells(alloc, aig, &mut formula, &mut nodes, &mut room, all)?;
    if !done {
        return Ok(None);
    }
    let guesses = room.guesses.as_slice();
    finish(alloc, formula, nodes.as_slice(), guesses, root, watch)
}
