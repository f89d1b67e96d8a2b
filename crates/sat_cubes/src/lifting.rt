ghost use Rattle.std.specs.Prelude.{◌≡◌, ◌<◌, ◌^◌, ℕ, ◌++◌, map, slice_index_or, Some, IfOk, OnOk};
ghost use Rattle.sat_cubes.specs.Cubes.{old_literal};
ghost use Rattle.sat_cubes.specs.Lifting.{listed, first_ids, lifted, lifted_hints};
ghost use Rattle.sat_cubes.specs.Joined.{Lifts, AreSmall};

use crate::book::Book;
use crate::id_map::IdMap;
use crate::part::Refutation;
use fv_text::Memory;
use lrat_check::Step;
use sat_search::MOST_CLAUSES;
use std::alloc::Global;

/// Lifts steps that refute what a cube leaves of the formula, up to their first empty clause. `block` is the
/// complements of the cube's literals: the last lifted clause.
pub(crate) fn lift(
    alloc: Global,
    book: &mut Book,
    refutation: &Refutation,
    block: &[i64],
) -> Result<(), Memory>
    requires { AreSmall refutation.now.numbers }
    ensures { OnOk result (Lifts book.old book.new
        (lifted (old_literal refutation.now.numbers) block.now (first_ids refutation.now.ids) book.old.top
        refutation.now.steps)) }
{
    let mut ids = IdMap::new(alloc, refutation.ids.as_slice())?;
    for step in refutation.steps.as_slice() {
        match step {
            Step::Add { id, lits, hints } => {
                let lits = lits.as_slice();
                let hints = lifted_hints(alloc, &ids, hints.as_slice())?;
                let old = old_clause(alloc, refutation.numbers.as_slice(), lits, block)?;
                book.add(old, hints)?;
                if lits.is_empty() {
                    return Ok(());
                }
                ids.put(*id, book.top())?;
            }
            Step::Delete { .. } => {}
        }
    }
    Ok(())
}

/// The old literals, and the block behind them.
fn old_clause(
    alloc: Global,
    numbers: &[u64],
    lits: &[i64],
    block: &[i64],
) -> Result<Vec<i64>, Memory>
    requires { AreSmall numbers.now }
    ensures { IfOk result (λ clause. clause.items ≡ map (old_literal numbers.now) lits.now ++ block.now) }
{
    let mut clause = Vec::with_capacity(alloc, lits.len())?;
    for lit in lits {
        clause.push(old_literal(numbers, lit))?;
    }
    clause.extend_from_slice(block)?;
    Ok(clause)
}

/// The literal by the old number of its variable.
fn old_literal(numbers: &[u64], lit: &i64) -> i64
    requires { AreSmall numbers.now }
    ensures { result ≡ old_literal numbers.now lit.now }
{
    let var = number_at(numbers, (lit.unsigned_abs() as usize).saturating_sub(1)) as i64;
    if *lit < 0 { -var } else { var }
}

fn number_at(numbers: &[u64], place: usize) -> u64
    ensures { result ≡ slice_index_or numbers.now place 0 }
{
    match numbers.get(place) {
        Some(number) => *number,
        None => 0,
    }
}

/// The hints by the ids of the formula's steps. The only error is want of memory, also where an id is `MOST_CLAUSES` or
/// more.
fn lifted_hints(alloc: Global, ids: &IdMap, hints: &[i64]) -> Result<Vec<i64>, Memory>
    ensures { IfOk result (λ found. found.items ≡ lifted_hints (listed ids.now) hints.now) }
{
    let mut found = Vec::with_capacity(alloc, hints.len())?;
    for hint in hints {
        if let Some(id) = ids.get(hint.unsigned_abs()) {
            if id >= MOST_CLAUSES as u64 {
                return Err(Memory);
            }
            found.push(id as i64)?;
        }
    }
    Ok(found)
}
