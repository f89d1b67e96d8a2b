//! The nodes of one cycle.
#![tactic(auto, using(wn_net::proofs::Laws::additions))]

ghost use Rattle.std.specs.Prelude.{◌≡◌, ◌<◌, length, map, slice_index, IfOk};
ghost use Rattle.wn_net.specs.Value.{Given, word_at, words_at};
ghost use Rattle.wn_net.specs.Given.{IsGiven};
ghost use Rattle.wn_net.specs.Net.{IsNode, IsNodeOf, AreNodes, value_at, widths_of, values_of};
ghost use Rattle.wn_net.specs.Changes.{AddsNodes};
ghost use Rattle.wn_mem.specs.Words.{numbers_of};
ghost use Rattle.bm_unroll.specs.Memories.{AreMemories, IsMemory, memory_numbers, memory_width};
ghost use Rattle.bm_unroll.specs.Cycle.{Copies, IsCopyable, StandFor, given_by, widths_at};

use crate::state::{MemoryNodes, StateNodes};
use fv_text::Memory;
use std::alloc::Global;
use wn_mem::read_after;
use wn_net::{Net, Node, NodeId};

/// The node that stands for the word at an address, by what stands for the words.
fn read_memory(frames: &mut Net, memory: &MemoryNodes, addr: NodeId) -> Result<NodeId, Memory>
    requires memory { IsMemory frames.old memory.now }
    requires addr { IsNode frames.old addr }
    ensures adds { AddsNodes frames.old frames.new }
    ensures there { IfOk result (IsNodeOf frames.new (memory_width frames.old memory.now)) }
    ensures value { IfOk result (λ id. (g : Given) → IsGiven frames.old g → value_at frames.new g id
        ≡ word_at (memory_numbers frames.old g memory.now) (value_at frames.old g addr)) }
{
    match memory {
        MemoryNodes::Words(words) => Ok(read_after(frames, words.as_slice(), addr)?),
        MemoryNodes::Writes(chain) => Ok(chain.read(frames, addr)?),
    }
}

/// The node that stands for the word of a memory at an address.
fn read_word(frames: &mut Net, state: &StateNodes, mem: u32, addr: NodeId) -> Result<NodeId, Memory>
    requires mems { AreMemories frames.old state.now.mems }
    requires mem { mem < length state.now.mems }
    requires addr { IsNode frames.old addr }
    ensures adds { AddsNodes frames.old frames.new }
    ensures there { IfOk result (IsNodeOf frames.new (slice_index (map (memory_width frames.old) state.now.mems) mem)) }
    ensures value { IfOk result (λ id. (g : Given) → IsGiven frames.old g → value_at frames.new g id
        ≡ word_at (words_at (map (memory_numbers frames.old g) state.now.mems) mem) (value_at frames.old g addr)) }
{
    let mems = state.mems.as_slice();
    let found = read_memory(frames, &mems[mem as usize], addr)?;
    Ok(found)
}

/// The node that stands for a node of the net, by those that stand for what it reads.
fn copy_node(
    frames: &mut Net,
    node: &Node,
    inputs: &[NodeId],
    state: &StateNodes,
    table: &[NodeId],
) -> Result<NodeId, Memory>
    requires { IsCopyable frames.old inputs.now state.now table.now node.now }
    ensures adds { AddsNodes frames.old frames.new }
    ensures copies { IfOk result (Copies frames.old frames.new inputs.now state.now table.now node.now) }
{
    match *node {
        Node::Konst(word) => Ok(frames.konst(word)?),
        Node::Input(i) => Ok(inputs[i as usize]),
        Node::Reg(i) => Ok(state.regs.as_slice()[i as usize]),
        Node::Read(mem, a) => Ok(read_word(frames, state, mem, table[a as usize])?),
        Node::Not(a) => Ok(frames.not(table[a as usize])?),
        Node::And(a, b) => Ok(frames.and(table[a as usize], table[b as usize])?),
        Node::Or(a, b) => Ok(frames.or(table[a as usize], table[b as usize])?),
        Node::Xor(a, b) => Ok(frames.xor(table[a as usize], table[b as usize])?),
        Node::Add(a, b) => Ok(frames.add(table[a as usize], table[b as usize])?),
        Node::Sub(a, b) => Ok(frames.sub(table[a as usize], table[b as usize])?),
        Node::Mul(a, b) => Ok(frames.mul(table[a as usize], table[b as usize])?),
        Node::Eq(a, b) => Ok(frames.eq(table[a as usize], table[b as usize])?),
        Node::Ult(a, b) => Ok(frames.ult(table[a as usize], table[b as usize])?),
        Node::Slt(a, b) => Ok(frames.slt(table[a as usize], table[b as usize])?),
        Node::Shl(a, b) => Ok(frames.shl(table[a as usize], table[b as usize])?),
        Node::Lshr(a, b) => Ok(frames.lshr(table[a as usize], table[b as usize])?),
        Node::Ashr(a, b) => Ok(frames.ashr(table[a as usize], table[b as usize])?),
        Node::Concat(a, b) => Ok(frames.concat(table[a as usize], table[b as usize])?),
        Node::Mux(c, a, b) => Ok(frames.mux(
            table[c as usize],
            table[a as usize],
            table[b as usize],
        )?),
        Node::Slice(a, low, width) => Ok(frames.slice(table[a as usize], low, width)?),
        Node::Zext(a, width) => Ok(frames.zext(table[a as usize], width)?),
        Node::Sext(a, width) => Ok(frames.sext(table[a as usize], width)?),
    }
}

/// What stands for each node of the net in a cycle, of which the inputs and the state are told.
pub fn copy_cycle(
    alloc: Global,
    frames: &mut Net,
    net: &Net,
    inputs: &[NodeId],
    state: &StateNodes,
) -> Result<Vec<NodeId>, Memory>
    requires { StandFor frames.old net.now inputs.now state.now }
    ensures adds { AddsNodes frames.old frames.new }
    ensures there { IfOk result (λ t. AreNodes frames.new t.items) }
    ensures widths { IfOk result (λ t. widths_at frames.new t.items ≡ widths_of net.now) }
    ensures numbers { IfOk result (λ t. (g : Given) → IsGiven frames.old g
        → numbers_of frames.new g t.items ≡ values_of net.now (given_by frames.old g inputs.now state.now)) }
{
    let mut table = Vec::new(alloc);
    for node in net.nodes() {
        let id = copy_node(frames, node, inputs, state, table.as_slice())?;
        table.push(id)?;
    }
    Ok(table)
}
