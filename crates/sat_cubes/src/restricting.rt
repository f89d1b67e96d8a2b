ghost use Rattle.std.specs.Prelude.{◌≡◌, ◌<◌, ◌^◌, pos, unsigned_abs, false, length, map, IfOk};
ghost use Rattle.cnf_form.specs.Cnf.{AreLiterals};
ghost use Rattle.lrat_check.specs.Sets.{IsLit};
ghost use Rattle.sat_trail.specs.Trail.{place_of};
ghost use Rattle.sat_cubes.specs.Cubes.{IsCube, open_vars, signed_as, renumbered, reduced, is_satisfied, restricted};
ghost use Rattle.sat_cubes.specs.Cubes.{ids_from};
ghost use Rattle.sat_cubes.specs.Parts.{AreNumbered};

use crate::cube_set::CubeSet;
use crate::numbering::{Numbering, number};
use cnf_form::{Formula, clause_at};
use fv_text::{List, Memory};
use sat_trail::Places;
use std::alloc::Global;

/// What is left of a formula under a cube: the clauses that it doesn't make true, without the literals that it makes
/// false, over the variables that it leaves open, which are numbered anew from 1, in order. With it come the old id of
/// each clause, from 1 on, and the old number of each variable.
///
/// The only error is want of memory, also where 2^32 variables or more are left open.
pub fn restrict(
    alloc: Global,
    formula: &Formula,
    cube: &[i64],
) -> Result<(Formula, List<u64>, List<u64>), Memory>
    requires { IsCube formula.now.vars cube.now }
    ensures vars { IfOk result (λ left. left.0.vars ≡ length (open_vars cube.now formula.now.vars)) }
    ensures clauses { IfOk result (λ left. left.0.clauses ≡ restricted cube.now formula.now.clauses) }
    ensures ids { IfOk result (λ left. left.1 ≡ ids_from cube.now 1 formula.now.clauses) }
    ensures numbers { IfOk result (λ left. left.2 ≡ open_vars cube.now formula.now.vars) }
{
    let vars = formula.vars();
    let set = CubeSet::new(alloc, cube)?;
    let Numbering { numbers, places } = number(alloc, vars, &set)?;
    let mut left = Formula::new(alloc, numbers.len() as u64);
    let mut ids = List::new(alloc);
    for index in 0..formula.len() {
        let clause = clause_at(formula, index);
        if !set.satisfies(clause) {
            let lits = restricted_clause(alloc, vars, &set, &places, clause)?;
            left.push(lits.as_slice())?;
            ids.push(index as u64 + 1)?;
        }
    }
    Ok((left, ids, numbers))
}

/// The literals that the cube leaves open, by the new numbers of their variables.
fn restricted_clause(
    alloc: Global,
    vars: u64,
    cube: &CubeSet,
    places: &Places,
    clause: &[i64],
) -> Result<Vec<i64>, Memory>
    requires small { vars < 2 ^ 63 }
    requires numbers { AreNumbered cube.now vars places.now }
    requires lits { AreLiterals vars clause.now }
    requires open { is_satisfied cube.now clause.now ≡ false }
    ensures { IfOk result (λ lits. lits.items ≡ map (renumbered cube.now) (reduced cube.now clause.now)) }
{
    let mut lits = Vec::new(alloc);
    for lit in clause {
        if !cube.is_false(lit) {
            lits.push(renumbered(places, lit))?;
        }
    }
    Ok(lits)
}

/// The literal by the new number of its variable.
fn renumbered(places: &Places, lit: &i64) -> i64
    requires { IsLit lit.now }
    ensures { result ≡ signed_as lit.now (place_of places.now (pos (unsigned_abs lit.now))) }
{
    let var = places.get(&lit.abs()) as i64;
    if *lit < 0 { -var } else { var }
}
