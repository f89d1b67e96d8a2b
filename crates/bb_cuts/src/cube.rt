//! Cubes of rows of a table of four leaves.
ghost use Rattle.std.specs.Prelude.{◌≡◌, ℕ, ◌<◌, Bool, not, ◌&&◌, ◌||◌};
ghost use Rattle.bb_cuts.specs.declared.leaves.Leaves.{Leaves};
ghost use Rattle.bb_cuts.specs.Rows as spec;
ghost use Rattle.bb_cuts.specs.Rows.{row, row_of, has_row, cube_holds, cover_holds};

/// The rows of a table of four leaves: bit `r` says whether it is true in row `r`, in which leaf `i` has the value of
/// bit `i` of `r`.
pub(crate) type Rows = u16;

/// The rows in which the first leaf is true, and so on.
pub(crate) const FIRST: Rows = 0xaaaa;

pub(crate) const SECOND: Rows = 0xcccc;

pub(crate) const THIRD: Rows = 0xf0f0;

pub(crate) const FOURTH: Rows = 0xff00;

/// What a cube asks of a leaf.
#[derive(Debug, Clone, Copy, PartialEq, Eq)]
pub(crate) enum Sign {
    /// Nothing.
    Absent,
    /// That it is true.
    Plain,
    /// That it is false.
    Turned,
}

/// Rows of a table: those in which each leaf is as it says.
#[derive(Debug, Clone, Copy, PartialEq, Eq)]
pub(crate) struct Cube {
    pub first: Sign,
    pub second: Sign,
    pub third: Sign,
    pub fourth: Sign,
}

/// The rows in which both are true.
#[tactic(auto, using(crate::proofs::RowLaws::both))]
pub(crate) fn both_rows(a: Rows, b: Rows) -> Rows
    ensures { (r : ℕ) → has_row result r ≡ (has_row a r && has_row b r) }
{
    a & b
}

/// The rows in which one is true, or both are.
#[tactic(auto, using(crate::proofs::RowLaws::either))]
pub(crate) fn either_rows(a: Rows, b: Rows) -> Rows
    ensures { (r : ℕ) → has_row result r ≡ (has_row a r || has_row b r) }
{
    a | b
}

/// The rows in which it is false.
#[tactic(auto, using(crate::proofs::RowLaws::other))]
pub(crate) fn other_rows(a: Rows) -> Rows
    ensures { (r : ℕ) → r < 16 → has_row result r ≡ not (has_row a r) }
{
    !a
}

/// The rows in which a leaf is as it should be, by those in which it is true.
fn sign_rows(sign: Sign, leaf: Rows) -> Rows
    ensures { (r : ℕ) → r < 16 → has_row result r ≡ spec.sign_holds sign (has_row leaf r) }
{
    match sign {
        Sign::Absent => Rows::MAX,
        Sign::Plain => leaf,
        Sign::Turned => other_rows(leaf),
    }
}

/// The rows of a cube.
pub(crate) fn cube_rows(cube: &Cube) -> Rows
    ensures { (value : ℕ → Bool) (leaves : Leaves)
        → has_row result (row_of value leaves) ≡ cube_holds value leaves cube.now }
{
    let first = sign_rows(cube.first, FIRST);
    let second = sign_rows(cube.second, SECOND);
    let third = sign_rows(cube.third, THIRD);
    let fourth = sign_rows(cube.fourth, FOURTH);
    let low = both_rows(first, second);
    let high = both_rows(third, fourth);
    both_rows(low, high)
}

/// The rows of some cubes.
pub(crate) fn cover_rows(cubes: &[Cube]) -> Rows
    ensures { (value : ℕ → Bool) (leaves : Leaves)
        → has_row result (row_of value leaves) ≡ cover_holds value leaves cubes.now }
{
    let mut rows = 0;
    for cube in cubes {
        let own = cube_rows(cube);
        rows = either_rows(rows, own);
    }
    rows
}
