//! One write to a memory: where it acts, by one test a word, and each word after it.
#![tactic(auto, using(wn_net::proofs::Laws::additions))]

ghost use Rattle.std.specs.Prelude.{
  ◌≡◌,
  ◌==◌,
  bit_and,
  bit_or,
  if◌then◌else◌,
  ℕ,
  ◌<◌,
  ◌≤◌,
  ◌^◌,
  length,
};
ghost use Rattle.std.specs.Prelude.{slice_index, IfOk, IfSome, OnOk, OnErr};
ghost use Rattle.fv_bits.specs.Bits.{bit, masked};
ghost use Rattle.wn_net.specs.Value.{Given};
ghost use Rattle.wn_net.specs.Next.{written};
ghost use Rattle.wn_net.specs.Net.{IsNode, IsNodeOf, AreNodesOf, IsWriteOf, value_at, width_at};
ghost use Rattle.wn_net.specs.Given.{IsGiven};
ghost use Rattle.wn_net.specs.Changes.{AddsNodes};
ghost use Rattle.wn_mem.specs.Words.{AreWords, AreShared, Asks, IsKept, IsRequest, ShareWrite, after_write};
ghost use Rattle.wn_mem.specs.Words.{words_width, numbers_of, hits};

use crate::bits::{bits_for, reached};
use crate::constant::constant_of;
use crate::groups::write_by_groups;
use fv_bits::ones;
use fv_text::{Memory, Word};
use std::alloc::Global;
use wn_net::{MemWrite, Net, NodeId};

/// What the words share of a write: the bits that are written, and the mask of those that are kept, where any are.
#[derive(Clone, Copy)]
pub(crate) struct Shared {
    pub(crate) written: NodeId,
    pub(crate) kept: Option<NodeId>,
}

/// The mask of the bits that a write keeps; none where its own mask has the constant of all bits.
fn kept_bits(net: &mut Net, mask: NodeId) -> Result<Option<NodeId>, Memory>
    requires { IsNode net.old mask }
    ensures adds { AddsNodes net.old net.new }
    ensures there { IfOk result (λ k. IfSome k (IsNodeOf net.new (width_at net.old mask))) }
    ensures value { IfOk result (λ k. (g : Given)
        → IsKept net.new g (width_at net.old mask) (value_at net.old g mask) k) }
{
    if let Some(number) = constant_of(net, mask) {
        if number == ones(net.width(mask)) {
            return Ok(None);
        }
    }
    let kept = net.not(mask)?;
    Ok(Some(kept))
}

/// The nodes that the words share of a write.
fn share(net: &mut Net, write: &MemWrite) -> Result<Shared, Memory>
    requires mask { IsNode net.old write.now.mask }
    requires value { IsNodeOf net.old (width_at net.old write.now.mask) write.now.value }
    ensures adds { AddsNodes net.old net.new }
    ensures there { IfOk result (λ s. AreShared net.new (width_at net.old write.now.mask) s.written s.kept) }
    ensures value { IfOk result (λ s. (g : Given) → ShareWrite net.new g (width_at net.old write.now.mask)
        (value_at net.old g write.now.mask) (value_at net.old g write.now.value) s.written s.kept) }
{
    let written = net.and(write.mask, write.value)?;
    let kept = kept_bits(net, write.mask)?;
    Ok(Shared { written, kept })
}

/// The word with the bits of the write.
fn changed_word(net: &mut Net, word: NodeId, shared: Shared) -> Result<NodeId, Memory>
    requires word { IsNode net.old word }
    requires shared { AreShared net.old (width_at net.old word) shared.written shared.kept }
    ensures adds { AddsNodes net.old net.new }
    ensures there { IfOk result (IsNodeOf net.new (width_at net.old word)) }
    ensures value { IfOk result (λ id. (g : Given) (mask number : ℕ)
        → ShareWrite net.old g (width_at net.old word) mask number shared.written shared.kept
        → value_at net.new g id ≡ masked (width_at net.old word) mask (value_at net.old g word) number) }
{
    let Some(kept) = shared.kept else {
        return Ok(shared.written);
    };
    let kept = net.and(kept, word)?;
    let changed = net.or(shared.written, kept)?;
    Ok(changed)
}

/// The word after a write that acts on it where `acts` is 1.
fn word_after(net: &mut Net, word: NodeId, acts: NodeId, shared: Shared) -> Result<NodeId, Memory>
    requires word { IsNode net.old word }
    requires acts { IsNodeOf net.old 1 acts }
    requires shared { AreShared net.old (width_at net.old word) shared.written shared.kept }
    ensures adds { AddsNodes net.old net.new }
    ensures there { IfOk result (IsNodeOf net.new (width_at net.old word)) }
    ensures value { IfOk result (λ id. (g : Given) (mask number : ℕ)
        → ShareWrite net.old g (width_at net.old word) mask number shared.written shared.kept
        → value_at net.new g id ≡ (if value_at net.old g acts == 1
        then masked (width_at net.old word) mask (value_at net.old g word) number else value_at net.old g word)) }
{
    let changed = changed_word(net, word, shared)?;
    let chosen = net.mux(acts, changed, word)?;
    Ok(chosen)
}

/// Puts for the word at the index its node after a write that acts on it where `acts` is 1.
pub(crate) fn write_word(
    net: &mut Net,
    words: &mut [NodeId],
    index: usize,
    acts: NodeId,
    shared: Shared,
) -> Result<(), Memory>
    requires words { AreNodesOf net.old (width_at net.old shared.written) words.old }
    requires within { index < length words.old }
    requires acts { IsNodeOf net.old 1 acts }
    requires shared { AreShared net.old (width_at net.old shared.written) shared.written shared.kept }
    ensures adds { AddsNodes net.old net.new }
    ensures there { OnOk result (AreNodesOf net.new (width_at net.old shared.written) words.new) }
    ensures value { OnOk result ((g : Given) (mask number : ℕ)
        → ShareWrite net.old g (width_at net.old shared.written) mask number shared.written shared.kept
        → numbers_of net.new g words.new
        ≡ written (width_at net.old shared.written) (numbers_of net.old g words.old)
        (value_at net.old g acts) index mask number) }
    ensures same_words { OnErr result (words.new ≡ words.old) }
{
    let after = word_after(net, words[index], acts, shared)?;
    words[index] = after;
    Ok(())
}

/// The bit that enables a write in front of its address, where both together have at most 128 bits.
pub(crate) fn request(net: &mut Net, write: &MemWrite) -> Result<Option<NodeId>, Memory>
    requires addr { IsNode net.old write.now.addr }
    requires enable { IsNodeOf net.old 1 write.now.enable }
    ensures adds { AddsNodes net.old net.new }
    ensures asked { IfOk result (IsRequest net.new write.now) }
{
    if net.width(write.addr) >= 128 {
        return Ok(None);
    }
    let asked = net.concat(write.enable, write.addr)?;
    Ok(Some(asked))
}

/// The number with one bit in front of so many.
#[tactic(auto, using(std::proofs::lemmas::Nat::one_shl))]
fn front_bit(width: u32) -> u128
    requires { width < 128 }
    ensures { result ≡ 2 ^ width }
{
    1 << width
}

/// 1 where a node has the number that a write to the word at the index asks with.
fn asks_for(net: &mut Net, write: &MemWrite, asked: NodeId, index: usize) -> Result<NodeId, Memory>
    requires addr { IsNode net.old write.now.addr }
    requires enable { IsNodeOf net.old 1 write.now.enable }
    requires asked { Asks net.old write.now asked }
    requires reached { index < 2 ^ width_at net.old write.now.addr }
    ensures adds { AddsNodes net.old net.new }
    ensures there { IfOk result (IsNodeOf net.new 1) }
    ensures value { IfOk result (λ id. (g : Given) → IsGiven net.old g
        → value_at net.new g id ≡ bit (hits net.old g write.now index)) }
{
    let width = net.width(write.addr);
    let Some(number) = Word::new(width + 1, front_bit(width) + index as u128) else {
        return Ok(write.enable);
    };
    let number = net.konst(number)?;
    let hit = net.eq(asked, number)?;
    Ok(hit)
}

/// 1 where a write acts and its address, of 128 bits, is the index.
fn acts_at(net: &mut Net, write: &MemWrite, index: usize) -> Result<NodeId, Memory>
    requires addr { IsNode net.old write.now.addr }
    requires enable { IsNodeOf net.old 1 write.now.enable }
    requires reached { index < 2 ^ width_at net.old write.now.addr }
    ensures adds { AddsNodes net.old net.new }
    ensures there { IfOk result (IsNodeOf net.new 1) }
    ensures value { IfOk result (λ id. (g : Given) → IsGiven net.old g
        → value_at net.new g id ≡ bit (hits net.old g write.now index)) }
{
    let Some(number) = Word::new(net.width(write.addr), index as u128) else {
        return Ok(write.enable);
    };
    let number = net.konst(number)?;
    let test = net.eq(write.addr, number)?;
    let acts = net.and(write.enable, test)?;
    Ok(acts)
}

/// 1 where a write acts on the word at the index.
pub(crate) fn acts_on(
    net: &mut Net,
    write: &MemWrite,
    asked: Option<NodeId>,
    index: usize,
) -> Result<NodeId, Memory>
    requires addr { IsNode net.old write.now.addr }
    requires enable { IsNodeOf net.old 1 write.now.enable }
    requires asked { IsRequest net.old write.now asked }
    requires reached { index < 2 ^ width_at net.old write.now.addr }
    ensures adds { AddsNodes net.old net.new }
    ensures there { IfOk result (IsNodeOf net.new 1) }
    ensures value { IfOk result (λ id. (g : Given) → IsGiven net.old g
        → value_at net.new g id ≡ bit (hits net.old g write.now index)) }
{
    match asked {
        Some(asked) => asks_for(net, write, asked, index),
        None => acts_at(net, write, index),
    }
}

/// Puts for the word at the index its node after a write.
fn write_at(
    net: &mut Net,
    words: &mut [NodeId],
    write: &MemWrite,
    asked: Option<NodeId>,
    index: usize,
    shared: Shared,
) -> Result<(), Memory>
    requires words { AreNodesOf net.old (width_at net.old shared.written) words.old }
    requires within { index < length words.old }
    requires write { IsWriteOf net.old (width_at net.old shared.written) write.now }
    requires asked { IsRequest net.old write.now asked }
    requires reached { index < 2 ^ width_at net.old write.now.addr }
    requires shared { AreShared net.old (width_at net.old shared.written) shared.written shared.kept }
    ensures adds { AddsNodes net.old net.new }
    ensures there { OnOk result (AreNodesOf net.new (width_at net.old shared.written) words.new) }
    ensures value { OnOk result ((g : Given) (mask number : ℕ) → IsGiven net.old g
        → ShareWrite net.old g (width_at net.old shared.written) mask number shared.written shared.kept
        → numbers_of net.new g words.new
        ≡ written (width_at net.old shared.written) (numbers_of net.old g words.old)
        (bit (hits net.old g write.now index)) index mask number) }
{
    let acts = acts_on(net, write, asked, index)?;
    write_word(net, words, index, acts, shared)?;
    Ok(())
}

/// How many of the words an address of so many bits reaches.
pub(crate) fn reached_by(words: usize, width: u32) -> usize
    requires { words < 2 ^ 63 }
    ensures few { result ≤ words }
    ensures reached { result ≤ 2 ^ width }
    ensures all { result < words → 2 ^ width ≤ result }
{
    let count = bits_for(words).min(width as usize);
    reached(words, count)
}

/// Puts the words after a write at an address that isn't constant: each word is told by one test.
fn write_singly(
    net: &mut Net,
    words: &mut [NodeId],
    write: &MemWrite,
    shared: Shared,
) -> Result<(), Memory>
    requires words { AreNodesOf net.old (width_at net.old shared.written) words.old }
    requires write { IsWriteOf net.old (width_at net.old shared.written) write.now }
    requires shared { AreShared net.old (width_at net.old shared.written) shared.written shared.kept }
    ensures adds { AddsNodes net.old net.new }
    ensures there { OnOk result (AreNodesOf net.new (width_at net.old shared.written) words.new) }
    ensures value { OnOk result ((g : Given) (mask number : ℕ) → IsGiven net.old g
        → ShareWrite net.old g (width_at net.old shared.written) mask number shared.written shared.kept
        → numbers_of net.new g words.new
        ≡ written (width_at net.old shared.written) (numbers_of net.old g words.old)
        (value_at net.old g write.now.enable)
        (value_at net.old g write.now.addr) mask number) }
{
    let width = net.width(write.addr);
    let most = reached_by(words.len(), width);
    let asked = request(net, write)?;
    for index in 0..most {
        write_at(net, words, write, asked, index, shared)?;
    }
    Ok(())
}

/// Puts the words after a write at an address that isn't constant; more than 4,096 of them by groups, which takes fewer
/// nodes that are two deeper.
fn write_each(
    net: &mut Net,
    words: &mut [NodeId],
    write: &MemWrite,
    shared: Shared,
) -> Result<(), Memory>
    requires words { AreNodesOf net.old (width_at net.old shared.written) words.old }
    requires write { IsWriteOf net.old (width_at net.old shared.written) write.now }
    requires shared { AreShared net.old (width_at net.old shared.written) shared.written shared.kept }
    ensures adds { AddsNodes net.old net.new }
    ensures there { OnOk result (AreNodesOf net.new (width_at net.old shared.written) words.new) }
    ensures value { OnOk result ((g : Given) (mask number : ℕ) → IsGiven net.old g
        → ShareWrite net.old g (width_at net.old shared.written) mask number shared.written shared.kept
        → numbers_of net.new g words.new
        ≡ written (width_at net.old shared.written) (numbers_of net.old g words.old)
        (value_at net.old g write.now.enable)
        (value_at net.old g write.now.addr) mask number) }
{
    let width = net.width(write.addr);
    if words.len() > 4_096 && width > 4 {
        write_by_groups(net, words, write, shared)
    } else {
        write_singly(net, words, write, shared)
    }
}

/// Puts for the word at a constant address its node after the write, where there is such a word. No other is looked at.
fn write_known(
    net: &mut Net,
    words: &mut [NodeId],
    write: &MemWrite,
    number: u128,
) -> Result<(), Memory>
    requires words { AreWords net.old words.old }
    requires write { IsWriteOf net.old (words_width net.old words.old) write.now }
    requires known { (g : Given) → value_at net.old g write.now.addr ≡ number }
    ensures adds { AddsNodes net.old net.new }
    ensures there { OnOk result (AreNodesOf net.new (words_width net.old words.old) words.new) }
    ensures value { OnOk result ((g : Given) → IsGiven net.old g
        → numbers_of net.new g words.new ≡ after_write net.old g words.old write.now) }
    ensures same_words { OnErr result (words.new ≡ words.old) }
{
    if number >= words.len() as u128 {
        return Ok(());
    }
    let shared = share(net, write)?;
    write_word(net, words, number as usize, write.enable, shared)?;
    Ok(())
}

/// Puts the words after the write; at a constant address the one word alone is looked at.
fn write_words(net: &mut Net, words: &mut [NodeId], write: &MemWrite) -> Result<(), Memory>
    requires words { AreWords net.old words.old }
    requires write { IsWriteOf net.old (words_width net.old words.old) write.now }
    ensures adds { AddsNodes net.old net.new }
    ensures there { OnOk result (AreNodesOf net.new (words_width net.old words.old) words.new) }
    ensures value { OnOk result ((g : Given) → IsGiven net.old g
        → numbers_of net.new g words.new ≡ after_write net.old g words.old write.now) }
{
    let Some(number) = constant_of(net, write.addr) else {
        let shared = share(net, write)?;
        write_each(net, words, write, shared)?;
        return Ok(());
    };
    write_known(net, words, write, number)
}

/// The words after the write, without giving nodes back where no memory is left.
fn written_words(
    alloc: Global,
    net: &mut Net,
    words: &[NodeId],
    write: &MemWrite,
) -> Result<Vec<NodeId>, Memory>
    requires words { AreWords net.old words.now }
    requires write { IsWriteOf net.old (words_width net.old words.now) write.now }
    ensures adds { AddsNodes net.old net.new }
    ensures there { IfOk result (λ made. AreNodesOf net.new (words_width net.old words.now) made.items) }
    ensures each { IfOk result (λ made. length made.items ≡ length words.now) }
    ensures value { IfOk result (λ made. (g : Given) → IsGiven net.old g
        → numbers_of net.new g made.items ≡ after_write net.old g words.now write.now) }
{
    let mut made = Vec::new(alloc);
    made.extend_from_slice(words)?;
    write_words(net, made.as_mut_slice(), write)?;
    Ok(made)
}

/// Puts for each word its node after the write. A write past the last word changes none.
pub fn write_all(
    alloc: Global,
    net: &mut Net,
    words: &mut [NodeId],
    write: &MemWrite,
) -> Result<(), Memory>
    requires some { 1 ≤ length words.old }
    requires words { AreWords net.old words.old }
    requires write { IsWriteOf net.old (words_width net.old words.old) write.now }
    ensures adds { AddsNodes net.old net.new }
    ensures there { OnOk result (AreNodesOf net.new (words_width net.old words.old) words.new) }
    ensures value { OnOk result ((g : Given) → IsGiven net.old g
        → numbers_of net.new g words.new ≡ after_write net.old g words.old write.now) }
    ensures same { OnErr result (net.new ≡ net.old) }
    ensures same_words { OnErr result (words.new ≡ words.old) }
{
    let nodes = net.nodes().len();
    let regs = net.regs().len();
    if let Some(number) = constant_of(net, write.addr) {
        return match write_known(net, words, write, number) {
            Ok(()) => Ok(()),
            Err(fault) => {
                net.cut(nodes, regs);
                Err(fault)
            }
        };
    }
    match written_words(alloc, net, words, write) {
        Ok(made) => {
            words.copy_from_slice(made.as_slice());
            Ok(())
        }
        Err(fault) => {
            net.cut(nodes, regs);
            Err(fault)
        }
    }
}
