ghost use Rattle.std.specs.Prelude.{◌≡◌, ◌<◌, ◌≤◌, ℕ, length, MatchOption};
ghost use Rattle.lrat_check.specs.Store.{number_at, Rising, NoId, IsId};

use crate::ranks::Ranks;

/// The place of the id among ids that rise. Mostly the ranks tell it, or no number between it and the last id is left
/// out.
#[inline(never)]
pub(crate) fn search(ids: &[u64], ranks: &Ranks, id: u64) -> Option<usize>
    requires { Rising ids.now }
    ensures { MatchOption result (NoId ids.now id) (λ k. IsId ids.now id k) }
{
    if let Some(guess) = ranks.before(id) {
        if guess < ids.len() && ids[guess] == id {
            return Some(guess);
        }
    }
    let low = least(ids, id);
    if low < ids.len() && ids[low] == id {
        return Some(low);
    }
    halve(ids, id, low, most(ids, id))
}

/// The place of the id, which is in this part or nowhere. The part is no longer than there are numbers left out, and
/// one more.
fn halve(ids: &[u64], id: u64, low: usize, high: usize) -> Option<usize>
    requires within { high ≤ length ids.now }
    requires lower { (k : ℕ) → k < low → number_at ids.now k < id }
    requires higher { (k : ℕ) → high ≤ k → k < length ids.now → id < number_at ids.now k }
    requires rising { Rising ids.now }
    ensures { MatchOption result (NoId ids.now id) (λ k. IsId ids.now id k) }
{
    let mut low = low;
    let mut high = high;
    while low < high {
        let middle = low + (high - low) / 2;
        let found = ids[middle];
        if found == id {
            return Some(middle);
        }
        if found < id {
            low = middle + 1;
        } else {
            high = middle;
        }
    }
    None
}

/// A place before which all ids are lower: as far before the last one as the last id is above this one.
fn least(ids: &[u64], id: u64) -> usize
    requires { Rising ids.now }
    ensures within { result ≤ length ids.now }
    ensures lower { (k : ℕ) → k < result → number_at ids.now k < id }
{
    let many = ids.len();
    if many == 0 {
        return 0;
    }
    let last = ids[many - 1];
    if last < id {
        return many;
    }
    (many - 1).saturating_sub((last - id) as usize)
}

/// A place from which on all ids are higher: as far behind the first one as this id is above the first.
fn most(ids: &[u64], id: u64) -> usize
    requires { Rising ids.now }
    ensures within { result ≤ length ids.now }
    ensures higher { (k : ℕ) → result ≤ k → k < length ids.now → id < number_at ids.now k }
{
    let many = ids.len();
    if many == 0 {
        return 0;
    }
    let first = ids[0];
    if id < first {
        return 0;
    }
    let behind = (id - first) as usize;
    if behind < many { behind + 1 } else { many }
}
