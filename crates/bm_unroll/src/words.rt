//! The words of a memory in the next cycle.
#![tactic(auto, using(wn_net::proofs::Laws::additions))]

ghost use Rattle.std.specs.Prelude.{◌≡◌, ◌<◌, ◌≤◌, length, IfOk, OnOk};
ghost use Rattle.std.specs.List.{AllByRecursion};
ghost use Rattle.wn_net.specs.Value.{Given};
ghost use Rattle.wn_net.specs.Net.{AreNodes, AreNodesOf, IsWriteOf};
ghost use Rattle.wn_net.specs.Given.{IsGiven};
ghost use Rattle.wn_net.specs.Changes.{AddsNodes};
ghost use Rattle.wn_net.specs.Next.{write_each};
ghost use Rattle.wn_mem.specs.Words.{AreWords, words_width, numbers_of, after_write};
ghost use Rattle.bm_unroll.specs.Cycle.{widths_at};
ghost use Rattle.wn_chain.specs.Chains.{IsChain, words_in};
ghost use Rattle.bm_unroll.specs.Moved.{IsTableWrite, copied};

use fv_text::Memory;
use std::alloc::Global;
use wn_chain::Chain;
use wn_mem::write_all;
use wn_net::{MemWrite, Net, NodeId};

/// A write by what stands for its nodes.
fn copy_write(table: &[NodeId], write: &MemWrite) -> MemWrite
    requires enable { write.now.enable < length table.now }
    requires addr { write.now.addr < length table.now }
    requires mask { write.now.mask < length table.now }
    requires value { write.now.value < length table.now }
    ensures { result ≡ copied table.now write.now }
{
    MemWrite {
        enable: table[write.enable as usize],
        addr: table[write.addr as usize],
        mask: table[write.mask as usize],
        value: table[write.value as usize],
    }
}

/// Puts for each word its node after a write.
fn write_once(
    alloc: Global,
    frames: &mut Net,
    words: &mut Vec<NodeId>,
    write: &MemWrite,
) -> Result<(), Memory>
    requires some { 1 ≤ length words.old.items }
    requires words { AreWords frames.old words.old.items }
    requires write { IsWriteOf frames.old (words_width frames.old words.old.items) write.now }
    ensures adds { AddsNodes frames.old frames.new }
    ensures there { OnOk result (AreNodesOf frames.new (words_width frames.old words.old.items) words.new.items) }
    ensures each { OnOk result (length words.new.items ≡ length words.old.items) }
    ensures value { OnOk result ((g : Given) → IsGiven frames.old g
        → numbers_of frames.new g words.new.items ≡ after_write frames.old g words.old.items write.now) }
{
    write_all(alloc, frames, words.as_mut_slice(), write)?;
    Ok(())
}

/// What stands for the words of a memory after its writes.
pub(crate) fn next_words(
    alloc: Global,
    frames: &mut Net,
    writes: &[MemWrite],
    table: &[NodeId],
    words: &[NodeId],
) -> Result<Vec<NodeId>, Memory>
    requires some { 1 ≤ length words.now }
    requires words { AreWords frames.old words.now }
    requires table { AreNodes frames.old table.now }
    requires writes { AllByRecursion (IsTableWrite (widths_at frames.old table.now)
        (words_width frames.old words.now)) writes.now }
    ensures adds { AddsNodes frames.old frames.new }
    ensures each { IfOk result (λ r. length r.items ≡ length words.now) }
    ensures there { IfOk result (λ r. AreNodesOf frames.new (words_width frames.old words.now) r.items) }
    ensures numbers { IfOk result (λ r. (g : Given) → IsGiven frames.old g → numbers_of frames.new g r.items
        ≡ write_each (numbers_of frames.old g table.now) (words_width frames.old words.now)
        (numbers_of frames.old g words.now) writes.now) }
{
    let mut made = Vec::with_capacity(alloc, words.len())?;
    made.extend_from_slice(words)?;
    for write in writes {
        let copy = copy_write(table, write);
        write_once(alloc, frames, &mut made, &copy)?;
    }
    Ok(made)
}

/// What stands for a memory after its writes, by the chain of the writes before.
pub(crate) fn next_chain(
    alloc: Global,
    frames: &Net,
    writes: &[MemWrite],
    table: &[NodeId],
    chain: &Chain,
) -> Result<Chain, Memory>
    requires chain { IsChain frames.now chain.now }
    requires table { AreNodes frames.now table.now }
    requires writes { AllByRecursion (IsTableWrite (widths_at frames.now table.now)
        (words_width frames.now chain.now.words)) writes.now }
    ensures there { IfOk result (IsChain frames.now) }
    ensures width { IfOk result (λ r. words_width frames.now r.words ≡ words_width frames.now chain.now.words) }
    ensures numbers { IfOk result (λ r. (g : Given) → words_in frames.now g r
        ≡ write_each (numbers_of frames.now g table.now) (words_width frames.now chain.now.words)
        (words_in frames.now g chain.now) writes.now) }
{
    let mut made = chain.copy(alloc)?;
    for write in writes {
        let copy = copy_write(table, write);
        made.push(frames, &copy)?;
    }
    Ok(made)
}
