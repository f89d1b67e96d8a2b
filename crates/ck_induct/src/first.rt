//! The first cycle in which a node is other than 0.

ghost use Rattle.std.specs.Prelude.{◌≡◌, ◌≤◌, IfOk};
ghost use Rattle.wn_net.specs.Net.{IsNodeOf, value_at};
ghost use Rattle.wn_run.specs.Runs.{AreChoicesOf};
ghost use Rattle.tr_replay.specs.Traces.{choices_of};
ghost use Rattle.bm_induct.specs.StepRuns.{run_cycle};
ghost use Rattle.ck_induct.specs.Traces as spec;
ghost use Rattle.ck_induct.specs.Traces.{IsFirstOther, first_in};

use fv_text::{List, Memory, Text};
use std::alloc::Global;
use tr_replay::{Chosen, replay};
use wn_net::{Names, Net, NetName, NodeId, Place};

/// The first number of a cycle, and 0 where there is none.
fn number_in(cycles: &[List<u128>], cycle: u32) -> u128
    ensures { result ≡ first_in cycles.now cycle }
{
    match cycles.get(cycle as usize) {
        Some(numbers) => match numbers.get(0) {
            Some(number) => *number,
            None => 0,
        },
        None => 0,
    }
}

/// The first cycle from 1 on, and up to `k`, whose first number is other than 0; `k` where there is none before it.
#[tactic(auto, using(crate::proofs::Firsts::firsts))]
fn first_other(cycles: &[List<u128>], k: u32) -> u32
    requires { 1 ≤ k }
    ensures { IsFirstOther (first_in cycles.now) k result }
{
    for cycle in 1..k {
        if number_in(cycles, cycle) != 0 {
            return cycle;
        }
    }
    k
}

/// Names of which there is one alone, that of a node of one bit.
fn name_of(alloc: Global, node: NodeId) -> Result<Names, Memory>
    ensures { IfOk result (λ names. names ≡ spec.names_of node) }
{
    let mut list = List::new(alloc);
    list.push(NetName {
        text: Text::from_vec(Vec::new(alloc)),
        width: 1,
        place: Place::Node(node),
        output: false,
        words: None,
    })?;
    Ok(Names {
        list,
        inputs: List::new(alloc),
        regs: List::new(alloc),
        mems: List::new(alloc),
    })
}

/// The first cycle from 1 on, and up to `k`, of the run with these choices in which a node of one bit is other than 0;
/// `k` where there is none before it.
pub(crate) fn first_cycle(
    alloc: Global,
    net: &Net,
    node: NodeId,
    chosen: &Chosen,
    k: u32,
) -> Result<u32, Memory>
    requires node { IsNodeOf net.now 1 node }
    requires chosen { AreChoicesOf net.now (choices_of chosen.now) }
    requires some { 1 ≤ k }
    ensures { IfOk result (IsFirstOther (λ i. value_at net.now (run_cycle net.now (choices_of chosen.now) i) node) k) }
{
    let names = name_of(alloc, node)?;
    let trace = replay(alloc, net, &names, chosen, k)?;
    Ok(first_other(trace.cycles.as_slice(), k))
}
