ghost use Rattle.std.specs.Prelude.{◌≡◌, ℕ, ◌-◌, ◌<◌, ◌^◌, pos, unsigned_abs, IfOk};
ghost use Rattle.sat_search.specs.Ledger.{ids_to, id_at, by_ids};

use fv_text::Memory;
use std::alloc::Global;

/// The ids of so many clauses of a formula, from 1 on.
pub(crate) fn ids_to(alloc: Global, many: usize) -> Result<Vec<u64>, Memory>
    ensures { IfOk result (λ ids. ids.items ≡ ids_to many) }
{
    let mut ids = Vec::with_capacity(alloc, many)?;
    for index in 0..many {
        ids.push(index as u64 + 1)?;
    }
    Ok(ids)
}

fn id_at(ids: &[u64], place: usize) -> u64
    ensures { result ≡ id_at ids.now place }
{
    match ids.get(place) {
        Some(id) => *id,
        None => 0,
    }
}

/// The id of the clause at one below the hint.
fn id_of(ids: &[u64], hint: &i64) -> i64
    requires { (place : ℕ) → id_at ids.now place < 2 ^ 63 }
    ensures { result ≡ pos (id_at ids.now (unsigned_abs hint.now - 1)) }
{
    let place = (hint.unsigned_abs() as usize).saturating_sub(1);
    id_at(ids, place) as i64
}

/// Hints by ids, of hints that are one above places.
pub(crate) fn by_ids(alloc: Global, ids: &[u64], hints: &[i64]) -> Result<Vec<i64>, Memory>
    requires { (place : ℕ) → id_at ids.now place < 2 ^ 63 }
    ensures { IfOk result (λ named. named.items ≡ by_ids ids.now hints.now) }
{
    let mut named = Vec::with_capacity(alloc, hints.len())?;
    for hint in hints {
        named.push(id_of(ids, hint))?;
    }
    Ok(named)
}
