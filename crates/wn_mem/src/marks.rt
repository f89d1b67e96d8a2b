//! Words that are told apart by a node each: whether a number is the place of the word.
#![tactic(auto, using(wn_net::proofs::Laws::additions))]

ghost use Rattle.std.specs.Prelude.{◌≡◌, ℕ, ◌+◌, ◌<◌, ◌≤◌, ◌^◌, length, IfOk, OnOk};
ghost use Rattle.fv_bits.specs.Bits.{low};
ghost use Rattle.wn_net.specs.Value.{Given, word_at};
ghost use Rattle.wn_net.specs.Net.{IsNode, IsNodeOf, AreNodesOf, value_at, width_at};
ghost use Rattle.wn_net.specs.Changes.{AddsNodes};
ghost use Rattle.wn_mem.specs.Words.{IsZero, Tell, apart, word_from, numbers_of};

use fv_text::{Memory, Word};
use wn_net::{Net, NodeId};

/// The number with the one bit of sixteen that the lowest four bits of a node say.
fn one_of_sixteen(net: &mut Net, addr: NodeId) -> Result<NodeId, Memory>
    requires addr { IsNode net.old addr }
    requires wide { 4 ≤ width_at net.old addr }
    ensures adds { AddsNodes net.old net.new }
    ensures there { IfOk result (IsNodeOf net.new 16) }
    ensures value { IfOk result (λ id. (g : Given)
        → value_at net.new g id ≡ 2 ^ low 4 (value_at net.old g addr)) }
{
    let by = net.slice(addr, 0, 4)?;
    let Some(one) = Word::new(16, 1) else {
        return Ok(by);
    };
    let one = net.konst(one)?;
    let shifted = net.shl(one, by)?;
    Ok(shifted)
}

/// Puts for each number of four bits a node that is 1 where the lowest four bits of the address are this number.
pub(crate) fn mark_nodes(net: &mut Net, addr: NodeId, marks: &mut [NodeId]) -> Result<(), Memory>
    requires addr { IsNode net.old addr }
    requires wide { 4 ≤ width_at net.old addr }
    requires sixteen { length marks.old ≡ 16 }
    ensures adds { AddsNodes net.old net.new }
    ensures long { length marks.new ≡ 16 }
    ensures nodes { OnOk result (AreNodesOf net.new 1 marks.new) }
    ensures value { OnOk result ((g : Given) → Tell net.new g marks.new (low 4 (value_at net.old g addr))) }
{
    let shifted = one_of_sixteen(net, addr)?;
    for index in 0..marks.len() {
        let mark = net.slice(shifted, index as u32, 1)?;
        marks[index] = mark;
    }
    Ok(())
}

/// The word whose mark is 1, where the first one has the mark `first`: the OR of the words, each masked by its mark.
fn marked_word(
    net: &mut Net,
    words: &[NodeId],
    marks: &[NodeId],
    first: usize,
    zero: NodeId,
) -> Result<NodeId, Memory>
    requires words { AreNodesOf net.old (width_at net.old zero) words.now }
    requires marks { AreNodesOf net.old 1 marks.now }
    requires zero { IsZero net.old zero }
    requires enough { first + length words.now ≤ length marks.now }
    ensures adds { AddsNodes net.old net.new }
    ensures there { IfOk result (IsNodeOf net.new (width_at net.old zero)) }
    ensures value { IfOk result (λ id. (g : Given) (n : ℕ) → Tell net.old g marks.now n
        → value_at net.new g id ≡ word_from first n (numbers_of net.old g words.now)) }
{
    let Some(word) = words.first() else {
        return Ok(zero);
    };
    if words.len() == 1 {
        let found = net.mux(marks[first], *word, zero)?;
        return Ok(found);
    }
    let half = words.len() / 2;
    let (front, back) = words.split_at(half);
    let low = marked_word(net, front, marks, first, zero)?;
    let high = marked_word(net, back, marks, first + half, zero)?;
    let found = net.or(low, high)?;
    Ok(found)
}

/// The word of these that the marks tell; without marks there is at most one word.
pub(crate) fn told_word(
    net: &mut Net,
    words: &[NodeId],
    marks: &[NodeId],
    zero: NodeId,
) -> Result<NodeId, Memory>
    requires words { AreNodesOf net.old (width_at net.old zero) words.now }
    requires marks { AreNodesOf net.old 1 marks.now }
    requires zero { IsZero net.old zero }
    requires enough { length words.now ≤ apart marks.now }
    ensures adds { AddsNodes net.old net.new }
    ensures there { IfOk result (IsNodeOf net.new (width_at net.old zero)) }
    ensures value { IfOk result (λ id. (g : Given) (n : ℕ) → n < apart marks.now → Tell net.old g marks.now n
        → value_at net.new g id ≡ word_at (numbers_of net.old g words.now) n) }
{
    if !marks.is_empty() {
        let found = marked_word(net, words, marks, 0, zero)?;
        return Ok(found);
    }
    let Some(word) = words.first() else {
        return Ok(zero);
    };
    Ok(*word)
}
