//! Clauses over variables.
ghost use Rattle.std.specs.Prelude.{◌≡◌, ◌+◌, ◌*◌, ◌<◌, ◌≤◌, ◌^◌, ◌++◌, OnOk};
ghost use Rattle.bb_cuts.specs.Covers as covers;
ghost use Rattle.bb_cuts.specs.Covers.{cube_clause, cover_clauses};

use crate::cube::{Cube, Sign};
use crate::leaves::Leaves;
use bb_aig::Lit;
use bb_clauses::push_clause;
use cnf_form::Formula;
use fv_text::Memory;
use std::alloc::Global;

/// The literal that is true where a leaf hasn't the value that is asked for: false where nothing is asked.
fn sign_literal(sign: Sign, var: u64) -> Lit
    requires { var ≤ 2 ^ 62 }
    ensures value { result ≡ covers.sign_literal sign var }
    ensures below { result < 2 * var + 2 }
{
    match sign {
        Sign::Absent => 0,
        Sign::Plain => 2 * var + 1,
        Sign::Turned => 2 * var,
    }
}

/// Says that a cube doesn't hold, or that a literal is true.
fn push_cube(
    alloc: Global,
    formula: &mut Formula,
    vars: &Leaves,
    out: Lit,
    cube: &Cube,
) -> Result<(), Memory>
    requires first { vars.now.first ≤ formula.old.vars }
    requires second { vars.now.second ≤ formula.old.vars }
    requires third { vars.now.third ≤ formula.old.vars }
    requires fourth { vars.now.fourth ≤ formula.old.vars }
    requires out { out < 2 * formula.old.vars + 2 }
    requires few { formula.old.vars ≤ 2 ^ 62 }
    ensures clauses { OnOk result (formula.new.clauses ≡ formula.old.clauses ++ cube_clause vars.now out cube.now) }
    ensures vars { formula.new.vars ≡ formula.old.vars }
{
    let first = sign_literal(cube.first, vars.first);
    let second = sign_literal(cube.second, vars.second);
    let third = sign_literal(cube.third, vars.third);
    let fourth = sign_literal(cube.fourth, vars.fourth);
    push_clause(alloc, formula, &[first, second, third, fourth, out])
}

/// Says that no cube holds, or that a literal is true.
pub(crate) fn push_cover(
    alloc: Global,
    formula: &mut Formula,
    vars: &Leaves,
    out: Lit,
    cubes: &[Cube],
) -> Result<(), Memory>
    requires first { vars.now.first ≤ formula.old.vars }
    requires second { vars.now.second ≤ formula.old.vars }
    requires third { vars.now.third ≤ formula.old.vars }
    requires fourth { vars.now.fourth ≤ formula.old.vars }
    requires out { out < 2 * formula.old.vars + 2 }
    requires few { formula.old.vars ≤ 2 ^ 62 }
    ensures clauses { OnOk result (formula.new.clauses ≡ formula.old.clauses ++ cover_clauses vars.now out cubes.now) }
    ensures vars { formula.new.vars ≡ formula.old.vars }
{
    for cube in cubes {
        push_cube(alloc, formula, vars, out, cube)?;
    }
    Ok(())
}
