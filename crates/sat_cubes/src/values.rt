ghost use Rattle.std.specs.Prelude.{◌≡◌, ◌<◌, ◌^◌, IfOk};
ghost use Rattle.sat_cubes.specs.Values.{merged, value_at};

use crate::cube_set::CubeSet;
use crate::numbering::is_assigned;
use fv_text::{List, Memory};
use std::alloc::Global;

/// The values of so many variables, that of variable 1 first: those of a cube's literals, and values for the others, in
/// order.
pub(crate) fn merged(
    alloc: Global,
    vars: u64,
    cube: &CubeSet,
    values: &[bool],
) -> Result<List<bool>, Memory>
    requires { vars < 2 ^ 63 }
    ensures { IfOk result (λ all. all ≡ merged cube.now values.now vars) }
{
    let mut all = List::new(alloc);
    let mut next = 0;
    for index in 0..vars {
        let var = index + 1;
        all.push(value_under(cube, values, next, var))?;
        if !is_assigned(cube, var) {
            next += 1;
        }
    }
    Ok(all)
}

/// The value of a variable, which has the place among the values if the cube leaves it open.
fn value_under(cube: &CubeSet, values: &[bool], place: usize, var: u64) -> bool
    requires some { 0 < var }
    requires small { var < 2 ^ 63 }
    ensures { result ≡ value_at cube.now values.now place var }
{
    let lit = var as i64;
    if cube.has(&lit) {
        return true;
    }
    if cube.is_false(&lit) {
        return false;
    }
    match values.get(place) {
        Some(value) => *value,
        None => false,
    }
}
