//! What a check comes to in runs of every length, by what is loaded of its text.

ghost use Rattle.std.specs.Prelude.{◌≡◌, ◌<◌, slice_get, IfOk};
ghost use Rattle.bm_decide.specs.Searches.{TakesFewer};
ghost use Rattle.ck_cfg.specs.Checks.{checks_of};
ghost use Rattle.ck_induct.specs.OneCycle.{in_cycle};
ghost use Rattle.rvf_case.specs.Cases.{IsReady};
ghost use Rattle.rvf_checks.specs.Lengths.{AreOfSteps, IsLengthAt, check_name};

use bm_decide::Plain;
use ck_cfg::Check;
use ck_induct::is_of_one_cycle;
use fv_text::Memory;
use rvf_case::{Case, Steps};
use rvf_judge::{Induction, induct};
use std::alloc::Global;

/// A copy of a check, with this cycle in place of its own.
fn copied_in_cycle(alloc: Global, check: &Check, cycle: u32) -> Result<Check, Memory>
    ensures { IfOk result (λ made. made ≡ in_cycle check.now cycle) }
{
    let name = check.name.copied(alloc)?;
    Ok(Check {
        name,
        kind: check.kind,
        row: check.row,
        channel: check.channel,
        start: cycle,
        trig: cycle,
        cycle,
    })
}

/// Answers the check at a place of the configuration's; past the last one there is none.
pub(crate) fn induct_at(
    alloc: Global,
    case: &Case,
    checks: &[Check],
    steps: Steps,
    budget: u64,
    place: usize,
) -> Result<Induction, Memory>
    requires ready { IsReady case.now }
    requires asked { AreOfSteps case.now steps.number }
    requires checks { checks.now ≡ checks_of case.now.config }
    requires budget { 0 < budget }
    ensures { IfOk result (IsLengthAt TakesFewer case.now steps.number budget place) }
{
    let Some(check) = checks.get(place) else {
        return Err(Memory);
    };
    if !is_of_one_cycle(check.kind) {
        return Ok(Induction::Skipped);
    }
    let Some(loaded) = case.loaded_of(check.kind) else {
        unreachable!()
    };
    let own = copied_in_cycle(alloc, check, steps.number)?;
    induct(
        alloc,
        &Plain,
        &loaded.net,
        &loaded.names,
        &loaded.port,
        &own,
        loaded.opts,
        steps.number,
        budget,
    )
}

/// The name of the check at a place; past the last one there is none.
pub(crate) fn check_name(checks: &[Check], place: usize) -> &[u8]
    ensures { result.now ≡ check_name (slice_get checks.now place) }
{
    match checks.get(place) {
        Some(check) => check.name.bytes(),
        None => &[],
    }
}
