ghost use Rattle.std.specs.Prelude.{◌≡◌, ◌<◌, ◌≤◌, ◌-◌, true, nat_lt, length, slice_index_or, IfOk, IfSome, MatchOption};
ghost use Rattle.sat_cubes.specs.Splits.{AreSplit, is_split};
ghost use Rattle.sat_cubes.specs.Parts.{NoneLeft, IsNextBy};

use crate::counting::counts_of;
use cnf_form::Formula;
use fv_text::Memory;
use std::alloc::Global;

/// So many variables of the formula, those with the most literals, or all where there are fewer. Of variables with as
/// many literals the lower comes first.
pub(crate) fn split_of(alloc: Global, formula: &Formula, many: u32) -> Result<Vec<u64>, Memory>
    ensures { IfOk result (λ split. AreSplit formula.now many split.items) }
{
    let counts = counts_of(alloc, formula)?;
    let mut split = Vec::new(alloc);
    for _turn in 0..many {
        match next_of(counts.as_slice(), split.as_slice()) {
            Some(var) => split.push(var)?,
            None => return Ok(split),
        }
    }
    Ok(split)
}

/// The variable that comes first of those that aren't taken.
fn next_of(counts: &[u64], taken: &[u64]) -> Option<u64>
    ensures { MatchOption result (NoneLeft (length counts.now) taken.now)
        (λ var. IsNextBy counts.now (length counts.now) taken.now var) }
{
    let mut next = None;
    for (index, count) in counts.iter().enumerate() {
        let var = index as u64 + 1;
        if !is_split(taken, var) && comes_first(counts, *count, next) {
            next = Some(var);
        }
    }
    next
}

/// Whether a variable of a higher number, with so many literals, comes before the first one so far.
fn comes_first(counts: &[u64], count: u64, next: Option<u64>) -> bool
    requires { IfSome next (λ other. (0 < other) × (other ≤ length counts.now)) }
    ensures { MatchOption next (result ≡ true)
        (λ other. result ≡ nat_lt (slice_index_or counts.now (other - 1) 0) count) }
{
    match next {
        Some(other) => counts[other as usize - 1] < count,
        None => true,
    }
}

/// Whether the variable is one of these.
pub(crate) fn is_split(split: &[u64], var: u64) -> bool
    ensures { result ≡ is_split split.now var }
{
    for other in split {
        if var == *other {
            return true;
        }
    }
    false
}
