ghost use Rattle.std.specs.Prelude.{◌≡◌, ◌+◌, ◌<◌, ◌≤◌, ◌^◌, [], ◌∷◌, pos, length, IfOk, OnOk};
ghost use Rattle.cnf_form.specs.Cnf.{Cnf};
ghost use Rattle.lrat_check.specs.Sets.{negs};
ghost use Rattle.sat_cubes.specs.Cubes.{cube_of, old_literal};
ghost use Rattle.sat_cubes.specs.Lifting.{first_ids, lifted};
ghost use Rattle.sat_cubes.specs.Joined.{AreVars, AreSmall, CanSplit, Adds, Lifts, Reaches, Tells, StaysAdded, AreRefuting};
ghost use Rattle.sat_cubes.specs.Parts.{AreRefutations, AreAllSmall, LiftsAll};

use crate::book::Book;
use crate::cube::{cube_of, negs, power_of_two};
use crate::lifting::lift;
use crate::part::Refutation;
use cnf_form::Formula;
use fv_text::{List, Memory};
use lrat_check::Step;
use std::alloc::Global;

/// Steps that refute the formula, from those that refute what each cube leaves of it: the lifted steps of all cubes, in
/// their order, and behind them steps that join the cubes' clauses in pairs, one split variable at a time from the
/// last.
pub(crate) fn joined(
    alloc: Global,
    formula: &Formula,
    split: &[u64],
    refutations: &[Refutation],
) -> Result<List<Step>, Memory>
    requires can { CanSplit formula.now split.now }
    requires parts { AreRefutations formula.now split.now refutations.now }
    ensures refuted { IfOk result (AreRefuting formula.now) }
    ensures cubes { IfOk result (Tells split.now (2 ^ length split.now)) }
{
    let _clauses = formula.len();
    let mut book = Book::new(alloc, formula)?;
    if split.is_empty() {
        lift_cube(alloc, &mut book, split, 0, &refutations[0])?;
        return Ok(book.into_steps());
    }
    let ids = lift_all(alloc, &mut book, split, refutations)?;
    join_all(alloc, &mut book, split, ids)?;
    Ok(book.into_steps())
}

/// Lifts each cube's steps, and answers the ids of the cubes' clauses.
fn lift_all(
    alloc: Global,
    book: &mut Book,
    split: &[u64],
    refutations: &[Refutation],
) -> Result<Vec<u64>, Memory>
    requires few { length split.now ≤ 6 }
    requires vars { AreVars split.now }
    requires numbers { AreAllSmall refutations.now }
    ensures all { IfOk result (λ ids. LiftsAll split.now refutations.now book.old book.new ids.items) }
    ensures whole { IfOk result (λ ids. length ids.items ≡ length refutations.now) }
    ensures small { book.old.top < 10 ^ 18 → IfOk result (λ ids. AreSmall ids.items) }
{
    let mut ids = Vec::with_capacity(alloc, refutations.len())?;
    for (index, refutation) in refutations.iter().enumerate() {
        lift_cube(alloc, book, split, index, refutation)?;
        ids.push(book.top())?;
    }
    Ok(ids)
}

/// Lifts the steps of the cube with the number.
fn lift_cube(
    alloc: Global,
    book: &mut Book,
    split: &[u64],
    index: usize,
    refutation: &Refutation,
) -> Result<(), Memory>
    requires few { length split.now ≤ 6 }
    requires vars { AreVars split.now }
    requires numbers { AreSmall refutation.now.numbers }
    ensures { OnOk result (Lifts book.old book.new (lifted (old_literal refutation.now.numbers)
        (negs (cube_of split.now (length split.now) index)) (first_ids refutation.now.ids) book.old.top
        refutation.now.steps)) }
{
    let cube = cube_of(alloc, split, split.len(), index)?;
    let block = negs(alloc, cube.as_slice())?;
    lift(alloc, book, refutation, block.as_slice())
}

/// Joins the cubes' clauses, which have the ids, down to the empty clause.
fn join_all(alloc: Global, book: &mut Book, split: &[u64], ids: Vec<u64>) -> Result<(), Memory>
    requires some { 0 < length split.now }
    requires few { length split.now ≤ 6 }
    requires vars { AreVars split.now }
    requires whole { length ids.items ≡ 2 ^ length split.now }
    requires small { AreSmall ids.items }
    ensures stays { OnOk result (StaysAdded book.old book.new) }
    ensures joins { OnOk result ((formula : Cnf) → CanSplit formula split.now
        → Reaches formula split.now (length split.now) (2 ^ length split.now) book.old ids.items
        → AreRefuting formula book.new.steps) }
{
    let mut left = split.len();
    let mut ids = ids;
    while left > 1 {
        left -= 1;
        ids = join(alloc, book, split, left, ids.as_slice())?;
    }
    add_join(alloc, book, Vec::new(alloc), ids[0], ids[1])
}

/// Joins in pairs the clauses with the ids, which are those of the cubes of one split variable more than are left.
fn join(
    alloc: Global,
    book: &mut Book,
    split: &[u64],
    left: usize,
    ids: &[u64],
) -> Result<Vec<u64>, Memory>
    requires some { 0 < left }
    requires room { left + 1 ≤ length split.now }
    requires few { length split.now ≤ 6 }
    requires vars { AreVars split.now }
    requires whole { length ids.now ≡ 2 ^ (left + 1) }
    requires small { AreSmall ids.now }
    ensures whole { IfOk result (λ joined. length joined.items ≡ 2 ^ left) }
    ensures small { IfOk result (λ joined. AreSmall joined.items) }
    ensures stays { OnOk result (StaysAdded book.old book.new) }
    ensures joins { IfOk result (λ joined. (formula : Cnf) → CanSplit formula split.now
        → Reaches formula split.now (left + 1) (2 ^ (left + 1)) book.old ids.now
        → Reaches formula split.now left (2 ^ left) book.new joined.items) }
{
    let half = power_of_two(left);
    let mut joined = Vec::with_capacity(alloc, half)?;
    for index in 0..half {
        let cube = cube_of(alloc, split, left, index)?;
        let lits = negs(alloc, cube.as_slice())?;
        add_join(alloc, book, lits, ids[index], ids[half + index])?;
        joined.push(book.top())?;
    }
    Ok(joined)
}

/// Adds the clause that two others lead to, by their ids.
fn add_join(
    alloc: Global,
    book: &mut Book,
    lits: Vec<i64>,
    one: u64,
    other: u64,
) -> Result<(), Memory>
    requires one { one < 2 ^ 63 }
    requires other { other < 2 ^ 63 }
    ensures { OnOk result (Adds book.old book.new lits.items (pos one ∷ pos other ∷ [])) }
{
    let mut hints = Vec::with_capacity(alloc, 2)?;
    hints.push(one as i64)?;
    hints.push(other as i64)?;
    book.add(lits, hints)
}
