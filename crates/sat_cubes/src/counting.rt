ghost use Rattle.std.specs.Prelude.{◌≡◌, ◌+◌, ◌<◌, ℕ, length, slice_index_or, IfOk, OnOk};
ghost use Rattle.cnf_form.specs.Cnf.{AreLiterals};
ghost use Rattle.sat_cubes.specs.Splits.{occurrences, occurrences_in};

use cnf_form::{Formula, clause_at};
use fv_text::Memory;
use std::alloc::Global;

/// How many literals of the formula name each variable, that of variable 1 first. The only error is want of memory,
/// also where so many literals name one that no memory holds them.
pub(crate) fn counts_of(alloc: Global, formula: &Formula) -> Result<Vec<u64>, Memory>
    ensures vars { IfOk result (λ counts. length counts.items ≡ formula.now.vars) }
    ensures each { IfOk result (λ counts. (k : ℕ) → k < formula.now.vars
        → slice_index_or counts.items k 0 ≡ occurrences (k + 1) formula.now.clauses) }
{
    let mut counts = vec![in alloc; 0; formula.vars() as usize]?;
    for index in 0..formula.len() {
        count(&mut counts, clause_at(formula, index))?;
    }
    Ok(counts)
}

/// Counts the literals of a clause.
fn count(counts: &mut Vec<u64>, clause: &[i64]) -> Result<(), Memory>
    requires { AreLiterals (length counts.old.items) clause.now }
    ensures vars { OnOk result (length counts.new.items ≡ length counts.old.items) }
    ensures each { OnOk result ((k : ℕ) → k < length counts.old.items → slice_index_or counts.new.items k 0
        ≡ slice_index_or counts.old.items k 0 + occurrences_in (k + 1) clause.now) }
{
    for lit in clause {
        let place = lit.unsigned_abs() as usize - 1;
        match counts[place].checked_add(1) {
            Some(many) => counts[place] = many,
            None => return Err(Memory),
        }
    }
    Ok(())
}
