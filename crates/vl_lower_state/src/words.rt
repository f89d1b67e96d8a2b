//! Writes of memories: those that were kept beside their cells, or one for each word.
#![tactic(auto, using(wn_net::proofs::Laws::additions))]

ghost use Rattle.std.specs.Prelude.{◌≡◌, ◌≤◌, ◌<◌, ◌^◌, ℕ, List, [], length, IfOk, IfSome, OnOk, Some, slice_get};
ghost use Rattle.std.specs.List.{AllByRecursion};
ghost use Rattle.fv_bits.specs.Bits as bits;
ghost use Rattle.wn_net.specs.Changes.{AddsNodes, Keeps, mem_width};
ghost use Rattle.wn_net.specs.Net.{IsNodeOf, IsWriteOf};
ghost use Rattle.vl_lower_assign.specs.Tracks.{track_at};
ghost use Rattle.vl_lower_spec.specs.Sources.{AreEach};
ghost use Rattle.vl_lower_state.specs.Stores.{AddsWrites, AreStored, IsConstant, KeptFit, MayStore};
ghost use Rattle.vl_lower_state.specs.Writing.{IsAt, IsStoredAt, with_writes, writes_at};

use fv_bits::ones;
use fv_text::{Memory, Word};
use vl_lower_assign::Track;
use wn_net::{MemWrite, Net, NodeId};

/// A number in so many bits.
fn constant(net: &mut Net, width: u32, value: u128) -> Result<NodeId, Memory>
    requires some { 1 ≤ width }
    requires few { width ≤ 128 }
    requires fits { value < 2 ^ width }
    ensures adds { AddsNodes net.old net.new }
    ensures is { IfOk result (IsConstant net.new width value) }
{
    let high = (value >> 64) as u64;
    let low = (value % (1 << 64)) as u64;
    let id = net.konst(Word { width, high, low })?;
    Ok(id)
}

/// Writes the cells from the first one on into the words of one memory.
fn store_memory(
    net: &mut Net,
    mem: u32,
    always: NodeId,
    cells: &[NodeId],
    first: u32,
) -> Result<(), Memory>
    requires at { IsAt net.old cells.now mem first }
    requires always { IsConstant net.old 1 1 always }
    ensures keeps { Keeps net.old net.new }
    ensures adds { AddsWrites net.old net.new }
    ensures stored { (tracks : List Track) → OnOk result (IsStoredAt net.old net.new cells.now tracks mem first) }
{
    let memory = &net.mems()[mem as usize];
    let width = memory.width;
    let count = memory.words;
    let mask = constant(net, width, ones(width))?;
    for word in 0..count {
        let addr = constant(net, 32, word as u128)?;
        let value = cells[first as usize + word as usize];
        net.mem_write(
            mem,
            MemWrite {
                enable: always,
                addr,
                mask,
                value,
            },
        )?;
    }
    Ok(())
}

/// The writes that were kept beside the cells of a memory, as many from the first on as it has words.
fn kept_writes(tracks: &[Track], mem: u32, first: u32, words: u32) -> Option<&[MemWrite]>
    ensures { IfSome result (λ writes. (mem < length tracks.now) × ((track_at tracks.now mem).first ≡ first)
        × ((track_at tracks.now mem).count ≡ words) × ((track_at tracks.now mem).writes ≡ Some writes.now)) }
{
    let track = tracks.get(mem as usize)?;
    if track.first != first as usize || track.count != words as usize {
        return None;
    }
    match &track.writes {
        Some(writes) => Some(writes.as_slice()),
        None => None,
    }
}

/// Gives one memory, which has none, these writes.
fn store_kept(net: &mut Net, mem: u32, writes: &[MemWrite]) -> Result<(), Memory>
    requires mem { mem < length net.old.mems }
    requires none { writes_at net.old.mems mem ≡ [] }
    requires fit { AllByRecursion (IsWriteOf net.old (mem_width net.old mem)) writes.now }
    ensures keeps { Keeps net.old net.new }
    ensures adds { AddsWrites net.old net.new }
    ensures others { OnOk result (net.new.mems ≡ with_writes mem writes.now net.old.mems) }
{
    for write in writes {
        net.mem_write(mem, *write)?;
    }
    Ok(())
}

/// Gives one memory the writes that were kept beside its cells, or where none were a write for each of its words.
fn store_one(
    net: &mut Net,
    mem: u32,
    always: NodeId,
    cells: &[NodeId],
    tracks: &[Track],
    first: u32,
) -> Result<(), Memory>
    requires at { IsAt net.old cells.now mem first }
    requires always { IsConstant net.old 1 1 always }
    requires fit { KeptFit net.old tracks.now (mem_width net.old mem) mem }
    ensures keeps { Keeps net.old net.new }
    ensures adds { AddsWrites net.old net.new }
    ensures stored { OnOk result (IsStoredAt net.old net.new cells.now tracks.now mem first) }
{
    let words = net.mems()[mem as usize].words;
    match kept_writes(tracks, mem, first, words) {
        Some(writes) => Ok(store_kept(net, mem, writes)?),
        None => Ok(store_memory(net, mem, always, cells, first)?),
    }
}

/// Gives each memory the writes that lead to the cells that its words will be: those that were kept beside them, or a
/// write for each word. `firsts` are the numbers of the memories' first cells.
pub fn store_words(
    net: &mut Net,
    cells: &[NodeId],
    tracks: &[Track],
    firsts: &[u32],
) -> Result<(), Memory>
    requires may { AreEach (MayStore net.old cells.now) net.old.mems firsts.now }
    requires fit { (mem : ℕ) → mem < length net.old.mems → KeptFit net.old tracks.now (mem_width net.old mem) mem }
    ensures keeps { Keeps net.old net.new }
    ensures adds { AddsWrites net.old net.new }
    ensures stored { OnOk result (AreStored net.new cells.now tracks.now 0 net.new.mems firsts.now) }
{
    let always = constant(net, 1, 1)?;
    let count = net.mems().len();
    for at in 0..count {
        store_one(net, at as u32, always, cells, tracks, firsts[at])?;
    }
    Ok(())
}
