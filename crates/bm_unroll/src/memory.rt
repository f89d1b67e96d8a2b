//! In which form a memory stands in the frames.
ghost use Rattle.std.specs.Prelude.{◌≡◌, ◌≤◌, length, IfOk};
ghost use Rattle.std.specs.List.{AllByRecursion};
ghost use Rattle.wn_net.specs.Net.{Netlist};
ghost use Rattle.bm_unroll.specs.Memories.{AreBegun, StandsForWords};

use crate::state::{MemoryNodes, StartNodes, StateNodes};
use fv_text::{List, Memory};
use std::alloc::Global;
use wn_chain::Chain;
use wn_net::{Mem, Net, Node, NodeId};

/// Whether a write of the memory may be at another address in each cycle.
fn has_varying_write(net: &Net, mem: &Mem) -> bool {
    let nodes = net.nodes();
    for write in mem.writes.as_slice() {
        if !matches!(nodes.get(write.addr as usize), Some(Node::Konst(_))) {
            return true;
        }
    }
    false
}

/// Whether a memory stands in the frames as a chain: one of its writes may be at another address in each cycle, and it has
/// fewer writes than words. A read of a chain tests each write of each cycle before, so where each word is reset it would
/// test as many constant addresses for each of these cycles as there are words.
fn is_chain(net: &Net, mem: &Mem) -> bool {
    mem.writes.len() < mem.words as usize && has_varying_write(net, mem)
}

/// What stands for a memory that begins with these words. Writes at constant addresses take one choice each where every
/// word has a node; a write at an address that varies takes none in a chain, and a choice for each word otherwise.
fn memory_of(alloc: Global, words: &[NodeId], chained: bool) -> Result<MemoryNodes, Memory>
    requires { 1 ≤ length words.now }
    ensures { IfOk result (λ memory. (net : Netlist) → StandsForWords net words.now memory) }
{
    let words = List::from_vec(Vec::from_slice(alloc, words)?);
    if chained {
        let chain = Chain::start(alloc, words);
        return Ok(MemoryNodes::Writes(chain));
    }
    Ok(MemoryNodes::Words(words))
}

/// What stands for the memories of a net that begin with these words.
fn memories_of(
    alloc: Global,
    net: &Net,
    words: &[List<NodeId>],
) -> Result<List<MemoryNodes>, Memory>
    requires each { length words.now ≡ length net.now.mems }
    requires some { AllByRecursion (λ ids. 1 ≤ length ids) words.now }
    ensures { IfOk result (λ mems. (frames : Netlist) → AreBegun frames words.now mems) }
{
    let mut made = Vec::with_capacity(alloc, words.len())?;
    for (index, mem) in net.mems().iter().enumerate() {
        let chained = is_chain(net, mem);
        let ids = words[index].as_slice();
        let memory = memory_of(alloc, ids, chained)?;
        made.push(memory)?;
    }
    Ok(List::from_vec(made))
}

/// What stands for the state at first, each memory in its form.
pub(crate) fn begin(alloc: Global, net: &Net, start: StartNodes) -> Result<StateNodes, Memory>
    requires each { length start.mems ≡ length net.now.mems }
    requires some { AllByRecursion (λ ids. 1 ≤ length ids) start.mems }
    ensures regs { IfOk result (λ state. state.regs ≡ start.regs) }
    ensures mems { IfOk result (λ state. (frames : Netlist) → AreBegun frames start.mems state.mems) }
{
    let StartNodes { regs, mems } = start;
    let mems = memories_of(alloc, net, mems.as_slice())?;
    Ok(StateNodes { regs, mems })
}
