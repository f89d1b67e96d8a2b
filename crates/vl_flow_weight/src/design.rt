ghost use Rattle.std.specs.Prelude.{◌≡◌, IfOk};
ghost use Rattle.vl_mean.specs.ConstantFaults.{capped};
ghost use Rattle.vl_flow_spec.specs.Weight as spec;

use crate::assigned::assigned_weight;
use crate::stmt::stmt_branch;
use fv_text::Memory;
use std::alloc::Global;
use vl_flow_spec::weights::a_weight_has_64_bits;
use vl_mean::widths::plus;
use vl_mean::{Driver, DriverKind, Env, Flat};
use vl_size::Decls;

fn driver_weight(alloc: Global, what: &DriverKind, decls: &Decls, bare: &Env) -> Result<u64, Memory>
    ensures { IfOk result (λ weight. weight ≡ capped (spec.driver_weight decls.now what.now)) }
{
    match what {
        DriverKind::Assign(target, expr) => Ok(assigned_weight(target, expr, decls, bare)),
        DriverKind::Comb(stmt) => Ok(stmt_branch(alloc, stmt, decls, bare)?.weight),
        DriverKind::Clocked(stmt) => Ok(stmt_branch(alloc, stmt, decls, bare)?.weight),
    }
}

/// The sum over the drivers, up to `2^64 - 1`.
fn drivers_weight(alloc: Global, drivers: &[Driver], decls: &Decls) -> Result<u64, Memory>
    ensures { IfOk result (λ weight. weight ≡ capped (spec.design_weight decls.now drivers.now)) }
{
    let bare = Env::new(alloc, Decls::new(alloc));
    let mut weight = 0;
    for driver in drivers {
        weight = plus(weight, driver_weight(alloc, &driver.what, decls, &bare)?);
    }
    Ok(weight)
}

/// About how many gates the design takes: the sum over its drivers. Time is about linear in them; what it takes of
/// memory are the sets of names that statements assign.
pub fn weight_of(alloc: Global, flat: &Flat) -> Result<u64, Memory>
    ensures { IfOk result (λ weight. weight ≡ spec.design_weight flat.now.decls flat.now.drivers) }
{
    let _count = flat.decls.len();
    a_weight_has_64_bits();
    Ok(drivers_weight(alloc, flat.drivers.as_slice(), &flat.decls)?)
}
