//! What a cube leaves of clauses.
ghost use Rattle.std.specs.Prelude.{◌≡◌, ◌<◌, ◌^◌, IsTrue};
ghost use Rattle.lrat_check.specs.Sets.{has};
ghost use Rattle.sat_trail.specs.Trail.{is_assigned};
ghost use Rattle.sat_cubes.specs.Cubes.{IsCube};

use crate::numbers::numbers;
use cnf_form::{Formula, are_literals};
use cnf_text::read_dimacs;
use fv_text::{List, Memory};
use sat_cubes::restrict;
use std::alloc::Global;

/// What is left of `CUBE|CLAUSES`: how many variables, the clauses, their old ids, and the old numbers of variables.
pub(crate) fn put_left(
    alloc: Global,
    out: &mut String,
    cube: &[u8],
    cnf: &[u8],
) -> Result<(), Memory> {
    let cube = numbers(alloc, cube)?;
    let Ok(formula) = read_dimacs(alloc, cnf) else {
        return Ok(out.push_str("no clauses")?)
    };
    if !is_cube(cube.as_slice(), formula.vars()) {
        return Ok(out.push_str("no cube")?);
    }
    let (left, ids, old) = restrict(alloc, &formula, cube.as_slice())?;
    put_formula(out, &left)?;
    put_numbers(out, " ids", &ids)?;
    put_numbers(out, " numbers", &old)
}

/// Whether the literals name variables of a formula with so many, and none of them twice.
fn is_cube(cube: &[i64], vars: u64) -> bool
    requires { vars < 2 ^ 63 }
    ensures { IsTrue result → IsCube vars cube.now }
{
    let mut rest = cube;
    while let [first, behind @ ..] = rest {
        if !are_literals(&[*first], vars) {
            return false;
        }
        if is_named(behind, first.unsigned_abs()) {
            return false;
        }
        rest = behind;
    }
    true
}

/// Whether one of the literals names the variable.
fn is_named(lits: &[i64], var: u64) -> bool
    requires some { 0 < var }
    requires small { var < 2 ^ 63 }
    ensures { result ≡ is_assigned lits.now var }
{
    let lit = var as i64;
    has(lits, &lit) || has(lits, &-lit)
}

fn has(lits: &[i64], wanted: &i64) -> bool
    ensures { result ≡ has lits.now wanted.now }
{
    for lit in lits {
        if wanted == lit {
            return true;
        }
    }
    false
}

fn put_formula(out: &mut String, formula: &Formula) -> Result<(), Memory> {
    write!(out, "{}", formula.vars())?;
    for index in 0..formula.len() {
        if let Some(clause) = formula.clause(index) {
            write!(out, " {clause:?}")?;
        }
    }
    Ok(())
}

fn put_numbers(out: &mut String, word: &str, numbers: &List<u64>) -> Result<(), Memory> {
    write!(out, "{word} {:?}", numbers.as_slice())?;
    Ok(())
}
