//! The traces that witnesses of the two halves of an induction tell.

ghost use Rattle.std.specs.Prelude.{◌≤◌, IfOk};
ghost use Rattle.wn_net.specs.Net.{IsNodeOf};
ghost use Rattle.wn_net.specs.Names.{AreNamesOf};
ghost use Rattle.bm_unroll.specs.Frames.{Chooses, IsChoice};
ghost use Rattle.bm_induct.specs.Halves.{IsStepChoice};
ghost use Rattle.bm_induct.specs.StepRuns.{IsBaseRun};
ghost use Rattle.bm_decide.specs.Chosen.{numbers_read};
ghost use Rattle.ck_induct.specs.Verdicts.{AreBitsBy, IsOnce};
ghost use Rattle.ck_induct.specs.Traces.{IsFailing, ShowsStepRun};

use crate::first::first_cycle;
use bm_decide::{Witness, chosen_of};
use bm_induct::step_trace;
use fv_text::{Memory, Trace};
use std::alloc::Global;
use tr_replay::replay;
use wn_net::{Names, Net, NodeId};

/// The trace of the run that a witness of the base tells, up to the first cycle from 1 on in which the bad node is
/// other than 0.
pub fn failing_trace(
    alloc: Global,
    net: &Net,
    names: &Names,
    bad: NodeId,
    k: u32,
    witness: &Witness,
) -> Result<Trace, Memory>
    requires names { AreNamesOf net.now names.now }
    requires bad { IsNodeOf net.now 1 bad }
    requires some { 1 ≤ k }
    requires once { IsOnce net.now (IsChoice net.now k) (IsBaseRun net.now bad k) witness.now }
    ensures { IfOk result (IsFailing net.now names.now bad k) }
{
    let chosen = chosen_of(alloc, witness)?;
    let cycle = first_cycle(alloc, net, bad, &chosen, k)?;
    replay(alloc, net, names, &chosen, cycle)
}

/// The trace of the step run that a witness of the step tells.
pub fn stepping_trace(
    alloc: Global,
    net: &Net,
    names: &Names,
    k: u32,
    witness: &Witness,
) -> Result<Trace, Memory>
    requires names { AreNamesOf net.now names.now }
    requires some { 1 ≤ k }
    requires few { k ≤ 100 }
    requires bits { AreBitsBy net.now (IsStepChoice net.now k) witness.now.bits }
    requires chooses { Chooses net.now witness.now.bits.sources (numbers_read witness.now) }
    ensures { IfOk result (ShowsStepRun net.now names.now k witness.now) }
{
    let chosen = chosen_of(alloc, witness)?;
    step_trace(alloc, net, names, &chosen, k)
}
