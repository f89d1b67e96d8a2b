//! The registers and memories in the next cycle.
#![tactic(auto, using(wn_net::proofs::Laws::additions))]

ghost use Rattle.std.specs.Prelude.{◌≡◌, length, map, slice_index, IfOk};
ghost use Rattle.std.specs.List.{AllByRecursion};
ghost use Rattle.wn_net.specs.Value.{Given};
ghost use Rattle.wn_net.specs.Net.{AreNodes, AreNodesOf, shape_of, widths_of};
ghost use Rattle.wn_net.specs.Given.{IsGiven};
ghost use Rattle.wn_net.specs.Changes.{AddsNodes};
ghost use Rattle.wn_net.specs.Next.{next_mems, write_each};
ghost use Rattle.wn_mem.specs.Words.{numbers_of};
ghost use Rattle.bm_unroll.specs.Memories.{AreMemories, IsMemory, memory_numbers, memory_width};
ghost use Rattle.bm_unroll.specs.Cycle.{AreStateNodes, state_by, widths_at};
ghost use Rattle.bm_unroll.specs.Moved.{IsTableWrite, moved};

use crate::state::{MemoryNodes, StateNodes};
use crate::words::{next_chain, next_words};
use fv_text::{List, Memory};
use std::alloc::Global;
use wn_net::{Mem, Net, NodeId};

/// What stands for the registers in the next cycle.
fn next_regs(alloc: Global, net: &Net, table: &[NodeId]) -> Result<Vec<NodeId>, Memory>
    requires { length table.now ≡ length net.now.nodes }
    ensures { IfOk result (λ r. r.items ≡ map (λ x. slice_index table.now x.next) net.now.regs) }
{
    let mut made = Vec::with_capacity(alloc, net.regs().len())?;
    for reg in net.regs() {
        made.push(table[reg.next as usize])?;
    }
    Ok(made)
}

/// What stands for the words of a memory in the next cycle.
fn next_memory(
    alloc: Global,
    frames: &mut Net,
    mem: &Mem,
    table: &[NodeId],
    memory: &MemoryNodes,
) -> Result<MemoryNodes, Memory>
    requires memory { IsMemory frames.old memory.now }
    requires table { AreNodes frames.old table.now }
    requires writes { AllByRecursion (IsTableWrite (widths_at frames.old table.now)
        (memory_width frames.old memory.now)) mem.now.writes }
    ensures adds { AddsNodes frames.old frames.new }
    ensures there { IfOk result (IsMemory frames.new) }
    ensures width { IfOk result (λ next. memory_width frames.new next ≡ memory_width frames.old memory.now) }
    ensures numbers { IfOk result (λ next. (g : Given) → IsGiven frames.old g → memory_numbers frames.new g next
        ≡ write_each (numbers_of frames.old g table.now) (memory_width frames.old memory.now)
        (memory_numbers frames.old g memory.now) mem.now.writes) }
{
    let writes = mem.writes.as_slice();
    match memory {
        MemoryNodes::Words(words) => {
            let next = next_words(alloc, frames, writes, table, words.as_slice())?;
            Ok(MemoryNodes::Words(List::from_vec(next)))
        }
        MemoryNodes::Writes(chain) => {
            let next = next_chain(alloc, frames, writes, table, chain)?;
            Ok(MemoryNodes::Writes(next))
        }
    }
}

/// What stands for the words of each memory in the next cycle.
fn next_memories(
    alloc: Global,
    frames: &mut Net,
    net: &Net,
    table: &[NodeId],
    mems: &List<MemoryNodes>,
) -> Result<Vec<MemoryNodes>, Memory>
    requires table { AreNodes frames.old table.now }
    requires widths { widths_at frames.old table.now ≡ widths_of net.now }
    requires mems { AreMemories frames.old mems.now }
    requires shape { map (memory_width frames.old) mems.now ≡ (shape_of net.now).mems }
    ensures adds { AddsNodes frames.old frames.new }
    ensures there { IfOk result (λ r. AreMemories frames.new r.items) }
    ensures shape { IfOk result (λ r. map (memory_width frames.new) r.items ≡ (shape_of net.now).mems) }
    ensures numbers { IfOk result (λ r. (g : Given) → IsGiven frames.old g
        → map (memory_numbers frames.new g) r.items
        ≡ next_mems (numbers_of frames.old g table.now) net.now.mems (map (memory_numbers frames.old g) mems.now)) }
{
    let old = mems.as_slice();
    let mut made = Vec::with_capacity(alloc, old.len())?;
    for (index, mem) in net.mems().iter().enumerate() {
        let next = next_memory(alloc, frames, mem, table, &old[index])?;
        made.push(next)?;
    }
    Ok(made)
}

fn state_of(regs: Vec<NodeId>, mems: Vec<MemoryNodes>) -> StateNodes
    ensures regs { result.regs ≡ regs.items }
    ensures mems { result.mems ≡ mems.items }
{
    StateNodes {
        regs: List::from_vec(regs),
        mems: List::from_vec(mems),
    }
}

/// What stands for the state in the next cycle, by what stands for each node of this one.
pub fn next_nodes(
    alloc: Global,
    frames: &mut Net,
    net: &Net,
    table: &[NodeId],
    state: &StateNodes,
) -> Result<StateNodes, Memory>
    requires table { AreNodes frames.old table.now }
    requires widths { widths_at frames.old table.now ≡ widths_of net.now }
    requires state { AreMemories frames.old state.now.mems }
    requires shape { map (memory_width frames.old) state.now.mems ≡ (shape_of net.now).mems }
    ensures adds { AddsNodes frames.old frames.new }
    ensures there { IfOk result (AreStateNodes frames.new) }
    ensures regs { IfOk result (λ next. widths_at frames.new next.regs ≡ (shape_of net.now).regs) }
    ensures mems { IfOk result (λ next. map (memory_width frames.new) next.mems ≡ (shape_of net.now).mems) }
    ensures numbers { IfOk result (λ next. (g : Given) → IsGiven frames.old g
        → state_by frames.new g next
        ≡ moved net.now (numbers_of frames.old g table.now) (state_by frames.old g state.now)) }
{
    let _ = net.regs();
    let regs = next_regs(alloc, net, table)?;
    let mems = next_memories(alloc, frames, net, table, &state.mems)?;
    let next = state_of(regs, mems);
    Ok(next)
}
