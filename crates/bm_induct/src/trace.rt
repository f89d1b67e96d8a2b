//! The trace of a step run.
ghost use Rattle.std.specs.Prelude.{◌≡◌, ◌+◌, ◌<◌, ◌≤◌, ◌^◌, IfOk};
ghost use Rattle.std.specs.List.{AllByRecursion};
ghost use Rattle.wn_net.specs.Names.{AreNamesOf};
ghost use Rattle.wn_run.specs.Runs.{AreChoicesOf};
ghost use Rattle.tr_replay.specs.Traces.{choices_of};
ghost use Rattle.bm_induct.specs.MovedNames as spec;
ghost use Rattle.bm_induct.specs.Steps.{step_trace_of};

use crate::how::Rebuild;
use crate::top::{offset_of, rebuilt};
use fv_text::{List, Memory, Trace};
use std::alloc::Global;
use tr_replay::{Chosen, replay};
use wn_net::{Names, Net, NetName, Place};

/// A node whose number is higher by `more`, or a memory.
fn moved_place(place: Place, more: u64) -> Place
    requires place { spec.IsBelow (2 ^ 63) place }
    requires few { more < 2 ^ 33 }
    ensures { result ≡ spec.moved_place more place }
{
    match place {
        Place::Node(id) => Place::Node(id + more),
        Place::Mem(mem) => Place::Mem(mem),
    }
}

/// A name whose node has a higher number.
fn moved_name(alloc: Global, name: &NetName, more: u64) -> Result<NetName, Memory>
    requires place { spec.IsBelow (2 ^ 63) name.now.place }
    requires few { more < 2 ^ 33 }
    ensures { IfOk result (λ made. made ≡ spec.moved_name more name.now) }
{
    let text = name.text.copied(alloc)?;
    let place = moved_place(name.place, more);
    Ok(NetName {
        text,
        width: name.width,
        place,
        output: name.output,
        words: name.words,
    })
}

/// The names of the net, in the net that is built anew. No spots are told.
fn moved_names(alloc: Global, names: &Names, more: u64) -> Result<Names, Memory>
    requires places { AllByRecursion (λ name. spec.IsBelow (2 ^ 63) name.place) names.now.list }
    requires few { more < 2 ^ 33 }
    ensures { IfOk result (λ made. made ≡ spec.moved_names more names.now) }
{
    let mut list = List::new(alloc);
    for name in names.list.as_slice() {
        let copy = moved_name(alloc, name, more)?;
        list.push(copy)?;
    }
    Ok(Names {
        list,
        inputs: List::new(alloc),
        regs: List::new(alloc),
        mems: List::new(alloc),
    })
}

/// The trace of the `k + 1` cycles that these choices give from any state, with each reset 0: a register or a word
/// begins with what is chosen for it, whatever it begins with in a run.
pub fn step_trace(
    alloc: Global,
    net: &Net,
    names: &Names,
    chosen: &Chosen,
    k: u32,
) -> Result<Trace, Memory>
    requires names { AreNamesOf net.now names.now }
    requires chosen { AreChoicesOf net.now (choices_of chosen.now) }
    requires some { 1 ≤ k }
    requires few { k ≤ 100 }
    ensures { IfOk result (λ trace. trace ≡ step_trace_of net.now names.now (choices_of chosen.now) k) }
{
    let _ = net.nodes();
    let more = offset_of(net);
    let made = rebuilt(alloc, net, Rebuild::Freed)?;
    let higher = moved_names(alloc, names, more)?;
    let trace = replay(alloc, &made, &higher, chosen, k)?;
    Ok(trace)
}
