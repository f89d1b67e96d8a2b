//! What registers and memories begin with.
ghost use Rattle.std.specs.Prelude.{◌≡◌, ℕ, ◌+◌, ◌*◌, ◌<◌, ◌≤◌, ◌^◌, length, map, sum};
ghost use Rattle.std.specs.Prelude.{slice_get, Some, IfOk, OnOk};
ghost use Rattle.std.specs.List.{AllByRecursion};
ghost use Rattle.wn_net.specs.declared.parts.Init.TheVariants as begins;
ghost use Rattle.wn_net.specs.Width.{IsWidth};
ghost use Rattle.wn_net.specs.Net.{Netlist, IsInitOf, shape_of};
ghost use Rattle.wn_run.specs.Runs.{start_number, regs_from, words_from, mems_from};
ghost use Rattle.bm_unroll.specs.Draft.{Extends, HasRoom, HasStart, IsDraft, Means, MeansAll, MeansMems, rank};
ghost use Rattle.bm_unroll.specs.Frames.{IsChoice, chosen, source_width};

use crate::draft::Draft;
use crate::frames::Source;
use crate::state::StartNodes;
use fv_text::{List, Memory};
use std::alloc::Global;
use wn_net::{Init, Mem, Net, NodeId};

/// What stands for a register or a word in the first cycle.
fn start_node(draft: &mut Draft, source: Source, width: u32, init: &Init) -> Result<NodeId, Memory>
    requires width { IsWidth width }
    requires init { IsInitOf width init.now }
    requires room { HasRoom draft.old 1 }
    ensures extends { OnOk result (Extends draft.old draft.new 1) }
    ensures means { IfOk result (Means draft.new width (λ ch. start_number (chosen ch source) init.now)) }
    ensures draft { OnOk result ((net : Netlist) (cycle bound : ℕ) → IsDraft net cycle bound draft.old
        → (init.now ≡ begins.Free → IsChoice net cycle source) → width ≡ source_width net source
        → bound ≤ rank source
        → IsDraft net cycle (rank source + 1) draft.new) }
{
    match init {
        Init::Free => {
            let free = draft.source(source, width)?;
            Ok(free)
        }
        Init::Known(number) => {
            let known = draft.known(width, *number)?;
            Ok(known)
        }
    }
}

/// What stands for the registers in the first cycle.
fn reg_starts(alloc: Global, draft: &mut Draft, net: &Net) -> Result<List<NodeId>, Memory>
    requires few { length net.now.regs ≤ 100000000 }
    requires room { HasRoom draft.old (length net.now.regs) }
    ensures extends { OnOk result (Extends draft.old draft.new (length net.now.regs)) }
    ensures means { IfOk result (MeansAll draft.new (shape_of net.now).regs (λ ch. regs_from ch.regs 0 net.now.regs)) }
    ensures draft { OnOk result ((cycle : ℕ) → IsDraft net.now cycle 0 draft.old
        → IsDraft net.now cycle (2 ^ 32) draft.new) }
{
    let mut made = Vec::with_capacity(alloc, net.regs().len())?;
    for (index, reg) in net.regs().iter().enumerate() {
        let id = start_node(draft, Source::RegStart(index as u32), reg.width, &reg.init)?;
        made.push(id)?;
    }
    Ok(List::from_vec(made))
}

/// What stands for the words of a memory in the first cycle.
fn word_starts(
    alloc: Global,
    draft: &mut Draft,
    number: u32,
    mem: &Mem,
) -> Result<List<NodeId>, Memory>
    requires width { IsWidth mem.now.width }
    requires init { AllByRecursion (IsInitOf mem.now.width) mem.now.init }
    requires few { length mem.now.init ≤ 100000000 }
    requires room { HasRoom draft.old (length mem.now.init) }
    ensures extends { OnOk result (Extends draft.old draft.new (length mem.now.init)) }
    ensures means { IfOk result (MeansAll draft.new (map (λ x. mem.now.width) mem.now.init)
        (λ ch. words_from (ch.words number) 0 mem.now.init)) }
    ensures draft { OnOk result ((net : Netlist) (cycle : ℕ) → slice_get net.mems number ≡ Some mem.now
        → IsDraft net cycle (2 ^ 32 + number * 2 ^ 32) draft.old
        → IsDraft net cycle (2 ^ 32 + (number + 1) * 2 ^ 32) draft.new) }
{
    let inits = mem.init.as_slice();
    let mut made = Vec::with_capacity(alloc, inits.len())?;
    for (index, init) in inits.iter().enumerate() {
        let source = Source::WordStart(number, index as u32);
        let id = start_node(draft, source, mem.width, init)?;
        made.push(id)?;
    }
    Ok(List::from_vec(made))
}

/// What stands for the words of all memories in the first cycle.
fn mem_starts(alloc: Global, draft: &mut Draft, net: &Net) -> Result<List<List<NodeId>>, Memory>
    requires few { sum (map (λ m. m.words) net.now.mems) ≤ 100000000 }
    requires room { HasRoom draft.old (sum (map (λ m. m.words) net.now.mems)) }
    ensures extends { OnOk result (Extends draft.old draft.new (sum (map (λ m. m.words) net.now.mems))) }
    ensures means { IfOk result (MeansMems draft.new (shape_of net.now).mems
        (λ ch. mems_from ch.words 0 net.now.mems)) }
    ensures draft { OnOk result ((cycle : ℕ) → IsDraft net.now cycle (2 ^ 32) draft.old
        → IsDraft net.now cycle (2 ^ 66) draft.new) }
{
    let mut made = Vec::with_capacity(alloc, net.mems().len())?;
    for (index, mem) in net.mems().iter().enumerate() {
        let words = word_starts(alloc, draft, index as u32, mem)?;
        made.push(words)?;
    }
    Ok(List::from_vec(made))
}

/// What stands for the state in the first cycle.
pub(crate) fn starts(alloc: Global, draft: &mut Draft, net: &Net) -> Result<StartNodes, Memory>
    requires few { length net.now.regs + sum (map (λ m. m.words) net.now.mems) ≤ 100000000 }
    requires room { HasRoom draft.old 100000000 }
    ensures extends { OnOk result (Extends draft.old draft.new 100000000) }
    ensures start { IfOk result (HasStart net.now draft.new) }
    ensures draft { OnOk result ((cycle : ℕ) → IsDraft net.now cycle 0 draft.old
        → IsDraft net.now cycle (2 ^ 66) draft.new) }
{
    let regs = reg_starts(alloc, draft, net)?;
    let mems = mem_starts(alloc, draft, net)?;
    Ok(StartNodes { regs, mems })
}
