//! A store of many clauses, most of which are removed.

ghost use Rattle.std.specs.Prelude.{◌≤◌};
ghost use Rattle.lrat_check.specs.Store.{next};

use fv_text::Memory;
use lrat_check::Store;
use std::alloc::Global;

/// Of 4,000 clauses each tenth stays: how many are held, and how many of these have their codes; then whether the ids
/// 7 and 10 are removed now, and what 10 holds after that.
pub(crate) fn put_many(alloc: Global, out: &mut String) -> Result<(), Memory> {
    let mut store = Store::new(alloc);
    fill(&mut store)?;
    put_counts(out, &store)?;
    let gone = store.remove(7);
    let stayed = store.remove(10);
    write!(out, " {gone} {stayed} {:?}", store.lits(10))?;
    Ok(())
}

/// The clause `id` has the variable `id`, and the complement of the next one.
fn fill(store: &mut Store) -> Result<(), Memory>
    requires { next store.old ≤ 1 }
{
    for id in 1..4001u64 {
        let lit = id as i64;
        store.add(id, &[lit, -lit - 1])?;
        if id % 10 != 0 {
            store.remove(id);
        }
    }
    Ok(())
}

fn put_counts(out: &mut String, store: &Store) -> Result<(), Memory> {
    let mut held = 0u64;
    let mut same = 0u64;
    for id in 1..4001u64 {
        if let Some(codes) = store.lits(id) {
            held = held.saturating_add(1);
            if codes == [2 * id, 2 * id + 3].as_slice() {
                same = same.saturating_add(1);
            }
        }
    }
    write!(out, "{held} {same}")?;
    Ok(())
}
