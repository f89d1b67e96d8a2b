//! What the two halves of an induction come to.

ghost use Rattle.std.specs.Prelude.{◌≤◌, ◌<◌, IfOk};
ghost use Rattle.wn_net.specs.Net.{IsNode};
ghost use Rattle.bm_induct.specs.Halves.{IsWithinBy};
ghost use Rattle.ck_induct.specs.Verdicts.{IsBaseSettled, IsStepSettled};

use crate::frames::clauses_of_frames;
use bm_decide::{Search, Verdict, settle};
use bm_induct::{base, step};
use fv_text::Memory;
use std::alloc::Global;
use wn_net::{Net, NodeId};

/// What the base of an induction comes to by a search within a budget of learnt clauses: no run has the bad node other
/// than 0 in a cycle from 1 to `k`, up to which it meets the assumptions; or here are the choices of one; or the budget
/// is used up.
pub fn decide_base<S: Search>(
    alloc: Global,
    search: &S,
    net: &Net,
    bad: NodeId,
    k: u32,
    budget: u64,
) -> Result<Verdict, Memory>
    requires can { S.can_find search.now }
    requires bad { IsNode net.now bad }
    requires within { IsWithinBy 3 net.now }
    requires some { 1 ≤ k }
    requires few { k ≤ 100 }
    requires budget { 0 < budget }
    ensures { IfOk result (IsBaseSettled net.now bad k (S.more search.now budget) budget) }
{
    let frames = base(alloc, net, bad, k)?;
    let clauses = clauses_of_frames(alloc, frames)?;
    settle(alloc, search, clauses, budget)
}

/// The same of the step: `k + 1` cycles from any state, without reset, in all of which the assumptions hold, and of
/// which the last is the first one that has the bad node other than 0.
pub fn decide_step<S: Search>(
    alloc: Global,
    search: &S,
    net: &Net,
    bad: NodeId,
    k: u32,
    budget: u64,
) -> Result<Verdict, Memory>
    requires can { S.can_find search.now }
    requires bad { IsNode net.now bad }
    requires within { IsWithinBy 1 net.now }
    requires some { 1 ≤ k }
    requires few { k ≤ 100 }
    requires budget { 0 < budget }
    ensures { IfOk result (IsStepSettled net.now bad k (S.more search.now budget) budget) }
{
    let frames = step(alloc, net, bad, k)?;
    let clauses = clauses_of_frames(alloc, frames)?;
    settle(alloc, search, clauses, budget)
}
