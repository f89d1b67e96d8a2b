ghost use Rattle.std.specs.Prelude.{◌≡◌, ◌≤◌, ◌+◌, IfOk, OnOk, length, pos};
ghost use Rattle.lrat_check.specs.Sets.{AreLits};
ghost use Rattle.lrat_check.specs.Steps.{deleted, numbered, with_clause};
ghost use Rattle.lrat_check.specs.Store.{held_of, next, AreHeld, Forgets, Deletes, OnlyMemory};

use crate::step::StepFault;
use crate::store::Store;
use cnf_form::{Formula, clause_at};
use std::alloc::Global;

pub(crate) fn put(held: &mut Store, id: u64, lits: &[i64]) -> Result<(), StepFault>
    requires above { next held.old ≤ id }
    requires lits { AreLits lits.now }
    ensures ok { OnOk result (held_of held.new ≡ with_clause (held_of held.old) id lits.now) }
    ensures next { OnOk result (next held.new ≡ id + 1) }
    ensures memory { OnlyMemory result }
{
    held.add(id, lits)?;
    Ok(())
}

/// Whether the id was held; it is held no longer.
fn remove(held: &mut Store, id: &u64) -> bool
    ensures forgets { Forgets (held_of held.old) (held_of held.new) id.now result }
    ensures next { next held.new ≡ next held.old }
{
    held.remove(*id)
}

/// The step `id` deletes the clauses with these ids.
pub(crate) fn delete(held: &mut Store, id: u64, ids: &[u64]) -> Result<(), StepFault>
    ensures deletes { Deletes (held_of held.new) result (deleted (held_of held.old) id ids.now) }
    ensures next { next held.new ≡ next held.old }
{
    for old in ids {
        if !remove(held, old) {
            return Err(not_held(id, old));
        }
    }
    Ok(())
}

fn not_held(id: u64, deleted: &u64) -> StepFault
    ensures { result ≡ StepFault.NoClause id (pos deleted.now) }
{
    StepFault::NoClause {
        id,
        hint: i128::from(*deleted),
    }
}

/// The clauses of a formula, with the ids from 1 on.
pub(crate) fn store_of(alloc: Global, formula: &Formula) -> Result<Store, StepFault>
    ensures held { IfOk result (λ store. held_of store ≡ numbered formula.now.clauses) }
    ensures next { IfOk result (λ store. next store ≤ length formula.now.clauses + 1) }
    ensures lits { IfOk result (λ store. AreHeld (held_of store)) }
    ensures memory { OnlyMemory result }
{
    // Below 2^63, so each literal has a complement.
    let _vars = formula.vars();
    let mut held = Store::new(alloc);
    let mut id = 0;
    for index in 0..formula.len() {
        id += 1;
        put(&mut held, id, clause_at(formula, index))?;
    }
    Ok(held)
}
