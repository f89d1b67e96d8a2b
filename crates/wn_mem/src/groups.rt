//! One write to many words at an address that isn't constant: one test for each group of sixteen words, and one node
//! for each number of the lowest four bits of the address.
#![tactic(auto, using(wn_net::proofs::Laws::additions))]

ghost use Rattle.std.specs.Prelude.{◌≡◌, ◌+◌, ◌*◌, ◌/◌, ◌%◌, ◌^◌, ◌<◌, ◌≤◌, ℕ, bit_and, length, IfOk, OnOk};
ghost use Rattle.fv_bits.specs.Bits.{bit};
ghost use Rattle.wn_net.specs.Value.{Given};
ghost use Rattle.wn_net.specs.Next.{written};
ghost use Rattle.wn_net.specs.Net.{IsNode, IsNodeOf, AreNodesOf, IsWriteOf, value_at, width_at};
ghost use Rattle.wn_net.specs.Given.{IsGiven};
ghost use Rattle.wn_net.specs.Changes.{AddsNodes};
ghost use Rattle.wn_mem.specs.Words.{AreShared, CountsGroups, IsRequest, ShareWrite, Tell, numbers_of, hits};

use crate::marks::mark_nodes;
use crate::write::{Shared, acts_on, reached_by, request, write_word};
use fv_text::Memory;
use wn_net::{MemWrite, Net, NodeId};

/// The write as groups of sixteen words see it: its address counts them.
fn group_of(net: &mut Net, write: &MemWrite) -> Result<MemWrite, Memory>
    requires addr { IsNode net.old write.now.addr }
    requires wide { 4 < width_at net.old write.now.addr }
    ensures adds { AddsNodes net.old net.new }
    ensures group { IfOk result (CountsGroups net.old net.new write.now) }
{
    let width = net.width(write.addr);
    let above = net.slice(write.addr, 4, width - 4)?;
    Ok(MemWrite {
        enable: write.enable,
        addr: above,
        mask: write.mask,
        value: write.value,
    })
}

/// 1 where a write acts on the group of the word at the index: made at the first word of the group, and kept for the
/// others.
fn group_test(
    net: &mut Net,
    group: &MemWrite,
    asked: Option<NodeId>,
    before: NodeId,
    index: usize,
) -> Result<NodeId, Memory>
    requires addr { IsNode net.old group.now.addr }
    requires enable { IsNodeOf net.old 1 group.now.enable }
    requires asked { IsRequest net.old group.now asked }
    requires reached { index / 16 < 2 ^ width_at net.old group.now.addr }
    requires before { IsNodeOf net.old 1 before }
    requires kept { (g : Given) → IsGiven net.old g → (index % 16 ≡ 0 → ⊥)
        → value_at net.old g before ≡ bit (hits net.old g group.now (index / 16)) }
    ensures adds { AddsNodes net.old net.new }
    ensures there { IfOk result (IsNodeOf net.new 1) }
    ensures value { IfOk result (λ id. (g : Given) → IsGiven net.old g
        → value_at net.new g id ≡ bit (hits net.old g group.now (index / 16))) }
{
    let place = index % 16;
    if place != 0 {
        return Ok(before);
    }
    acts_on(net, group, asked, index / 16)
}

/// Puts for the word at the index its node after a write that acts on it where both bits are 1.
fn write_where_both(
    net: &mut Net,
    words: &mut [NodeId],
    index: usize,
    acts: NodeId,
    mark: NodeId,
    shared: Shared,
) -> Result<(), Memory>
    requires words { AreNodesOf net.old (width_at net.old shared.written) words.old }
    requires within { index < length words.old }
    requires acts { IsNodeOf net.old 1 acts }
    requires mark { IsNodeOf net.old 1 mark }
    requires shared { AreShared net.old (width_at net.old shared.written) shared.written shared.kept }
    ensures adds { AddsNodes net.old net.new }
    ensures there { OnOk result (AreNodesOf net.new (width_at net.old shared.written) words.new) }
    ensures value { OnOk result ((g : Given) (mask number : ℕ)
        → ShareWrite net.old g (width_at net.old shared.written) mask number shared.written shared.kept
        → numbers_of net.new g words.new
        ≡ written (width_at net.old shared.written) (numbers_of net.old g words.old)
        (bit_and (value_at net.old g acts) (value_at net.old g mark)) index mask number) }
{
    let both = net.and(acts, mark)?;
    write_word(net, words, index, both, shared)?;
    Ok(())
}

/// Puts the first words after a write: each is told by the test of its group and the mark of its place there.
fn write_groups(
    net: &mut Net,
    words: &mut [NodeId],
    most: usize,
    group: &MemWrite,
    asked: Option<NodeId>,
    marks: &[NodeId],
    shared: Shared,
) -> Result<(), Memory>
    requires words { AreNodesOf net.old (width_at net.old shared.written) words.old }
    requires within { most ≤ length words.old }
    requires addr { IsNode net.old group.now.addr }
    requires enable { IsNodeOf net.old 1 group.now.enable }
    requires reached { most ≤ 2 ^ width_at net.old group.now.addr * 16 }
    requires asked { IsRequest net.old group.now asked }
    requires marks { AreNodesOf net.old 1 marks.now }
    requires sixteen { length marks.now ≡ 16 }
    requires shared { AreShared net.old (width_at net.old shared.written) shared.written shared.kept }
    ensures adds { AddsNodes net.old net.new }
    ensures there { OnOk result (AreNodesOf net.new (width_at net.old shared.written) words.new) }
    ensures value { OnOk result ((g : Given) (mask number place : ℕ) → IsGiven net.old g
        → ShareWrite net.old g (width_at net.old shared.written) mask number shared.written shared.kept
        → place < 16 → Tell net.old g marks.now place
        → (most < length words.old → value_at net.old g group.now.addr * 16 + place < most)
        → numbers_of net.new g words.new
        ≡ written (width_at net.old shared.written) (numbers_of net.old g words.old)
        (value_at net.old g group.now.enable)
        (value_at net.old g group.now.addr * 16 + place) mask number) }
{
    let mut acts = group.enable;
    for index in 0..most {
        let test = group_test(net, group, asked, acts, index)?;
        write_where_both(net, words, index, test, marks[index % 16], shared)?;
        acts = test;
    }
    Ok(())
}

/// Puts the words after a write at an address that isn't constant.
pub(crate) fn write_by_groups(
    net: &mut Net,
    words: &mut [NodeId],
    write: &MemWrite,
    shared: Shared,
) -> Result<(), Memory>
    requires words { AreNodesOf net.old (width_at net.old shared.written) words.old }
    requires write { IsWriteOf net.old (width_at net.old shared.written) write.now }
    requires wide { 4 < width_at net.old write.now.addr }
    requires shared { AreShared net.old (width_at net.old shared.written) shared.written shared.kept }
    ensures adds { AddsNodes net.old net.new }
    ensures there { OnOk result (AreNodesOf net.new (width_at net.old shared.written) words.new) }
    ensures value { OnOk result ((g : Given) (mask number : ℕ) → IsGiven net.old g
        → ShareWrite net.old g (width_at net.old shared.written) mask number shared.written shared.kept
        → numbers_of net.new g words.new
        ≡ written (width_at net.old shared.written) (numbers_of net.old g words.old)
        (value_at net.old g write.now.enable)
        (value_at net.old g write.now.addr) mask number) }
{
    let width = net.width(write.addr);
    let most = reached_by(words.len(), width);
    let mut marks = [0u64; 16];
    mark_nodes(net, write.addr, &mut marks)?;
    let group = group_of(net, write)?;
    let asked = request(net, &group)?;
    write_groups(net, words, most, &group, asked, &marks, shared)?;
    Ok(())
}
