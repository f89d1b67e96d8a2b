ghost use Rattle.std.specs.Prelude.{◌≡◌, ◌<◌, ◌^◌, IfOk};
ghost use Rattle.sat_trail.specs.Trail.{is_assigned};
ghost use Rattle.sat_cubes.specs.Cubes.{open_vars};
ghost use Rattle.sat_cubes.specs.Parts.{AreNumbered};

use crate::cube_set::CubeSet;
use fv_text::{List, Memory};
use sat_trail::Places;
use std::alloc::Global;

/// The variables that a cube leaves open.
#[derive(Drop)]
pub(crate) struct Numbering {
    /// Their numbers in the formula, in order.
    pub numbers: List<u64>,
    /// The new number of each.
    pub places: Places,
}

/// The variables up to one that a cube leaves open, numbered from 1 on.
pub(crate) fn number(alloc: Global, vars: u64, cube: &CubeSet) -> Result<Numbering, Memory>
    requires { vars < 2 ^ 63 }
    ensures numbers { IfOk result (λ found. found.numbers ≡ open_vars cube.now vars) }
    ensures places { IfOk result (λ found. AreNumbered cube.now vars found.places) }
{
    let mut numbers = List::new(alloc);
    let mut places = Places::new(alloc);
    for index in 0..vars {
        let var = index + 1;
        if !is_assigned(cube, var) {
            numbers.push(var)?;
            places.put(&(var as i64), numbers.len())?;
        }
    }
    Ok(Numbering { numbers, places })
}

/// Whether the variable is one of the cube's.
pub(crate) fn is_assigned(cube: &CubeSet, var: u64) -> bool
    requires some { 0 < var }
    requires small { var < 2 ^ 63 }
    ensures { result ≡ is_assigned cube.now var }
{
    let lit = var as i64;
    cube.has(&lit) || cube.is_false(&lit)
}
