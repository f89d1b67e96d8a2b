ghost use Rattle.std.specs.Prelude.{◌≡◌, ◌<◌, ◌≤◌, ◌^◌, ℕ, length, slice_index_or, IfOk};
ghost use Rattle.lrat_check.specs.Sets.{AreLits, negs};
ghost use Rattle.sat_cubes.specs.Cubes.{cube_of};
ghost use Rattle.sat_cubes.specs.Joined.{AreVars};

use fv_text::Memory;
use std::alloc::Global;

/// The cube with a number, of the first split variables: variable number b of these, from 0, is true exactly where bit
/// b of the number is 1.
pub(crate) fn cube_of(
    alloc: Global,
    split: &[u64],
    many: usize,
    index: usize,
) -> Result<Vec<i64>, Memory>
    requires within { many ≤ length split.now }
    requires few { many ≤ 6 }
    requires vars { AreVars split.now }
    ensures lits { IfOk result (λ lits. lits.items ≡ cube_of split.now many index) }
    ensures are_lits { IfOk result (λ lits. AreLits lits.items) }
{
    let mut lits = Vec::with_capacity(alloc, many)?;
    let mut left = many;
    let mut rest = index;
    while left > 0 {
        left -= 1;
        let half = power_of_two(left);
        let var = split[left] as i64;
        if rest < half {
            lits.push(-var)?;
        } else {
            rest -= half;
            lits.push(var)?;
        }
    }
    Ok(lits)
}

/// How many cubes so many split variables have.
pub(crate) fn power_of_two(many: usize) -> usize
    requires { many ≤ 6 }
    ensures value { result ≡ 2 ^ many }
    ensures few { result ≤ 64 }
{
    1 << many
}

/// The complements of literals.
pub(crate) fn negs(alloc: Global, lits: &[i64]) -> Result<Vec<i64>, Memory>
    requires { AreLits lits.now }
    ensures { IfOk result (λ complements. complements.items ≡ negs lits.now) }
{
    let mut complements = Vec::with_capacity(alloc, lits.len())?;
    for lit in lits {
        complements.push(-*lit)?;
    }
    Ok(complements)
}
