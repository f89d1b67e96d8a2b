//! One read of a memory: a tree over the bits of the address, of groups of words where there are many.
#![tactic(auto, using(wn_net::proofs::Laws::additions))]

ghost use Rattle.std.specs.Prelude.{
  ◌≡◌,
  ◌==◌,
  ◌+◌,
  ◌*◌,
  ◌/◌,
  min,
  ℕ,
  if◌then◌else◌,
  ◌<◌,
  ◌≤◌,
  ◌^◌,
  length,
  slice_index,
  IfOk,
  OnErr,
};
ghost use Rattle.wn_net.specs.Value.{Given, word_at};
ghost use Rattle.wn_net.specs.Net.{IsNode, IsNodeOf, AreNodesOf, value_at, width_at};
ghost use Rattle.wn_net.specs.Given.{IsGiven};
ghost use Rattle.wn_net.specs.Changes.{AddsNodes};
ghost use Rattle.fv_bits.specs.Bits.{low};
ghost use Rattle.wn_mem.specs.Words.{AreWords, IsZero, Tell, apart, words_width, numbers_of, number_of};

use crate::bits::{address_bits, bits_for, is_low, reached};
use crate::constant::{constant_of, zero_of};
use crate::marks::{mark_nodes, told_word};
use crate::whole::memory_of;
use fv_text::Memory;
use wn_net::{Net, NodeId};

/// How many of the words are in a half that so many bits tell, where each of its places has so many words.
#[tactic(auto, using(std::proofs::lemmas::Nat::one_shl))]
fn half_of(words: usize, bits: usize, each: usize) -> usize
    requires bits { bits < 59 }
    requires each { each ≤ 16 }
    ensures { result ≡ min words (2 ^ bits * each) }
{
    words.min((1 << bits) * each)
}

/// The word at the place that the bits say, the highest of them first, and there the one that the marks tell; else the
/// node that is 0. The highest bit takes one of two halves of the words.
fn word_among(
    net: &mut Net,
    words: &[NodeId],
    bits: &[NodeId],
    marks: &[NodeId],
    zero: NodeId,
) -> Result<NodeId, Memory>
    requires words { AreNodesOf net.old (width_at net.old zero) words.now }
    requires bits { AreNodesOf net.old 1 bits.now }
    requires marks { AreNodesOf net.old 1 marks.now }
    requires zero { IsZero net.old zero }
    requires few { length bits.now ≤ 59 }
    requires few_marks { length marks.now ≤ 16 }
    requires enough { length words.now ≤ 2 ^ length bits.now * apart marks.now }
    ensures adds { AddsNodes net.old net.new }
    ensures there { IfOk result (IsNodeOf net.new (width_at net.old zero)) }
    ensures value { IfOk result (λ id. (g : Given) (n : ℕ) → IsGiven net.old g → n < apart marks.now
        → Tell net.old g marks.now n
        → value_at net.new g id ≡ word_at (numbers_of net.old g words.now)
        (number_of (numbers_of net.old g bits.now) * apart marks.now + n)) }
{
    let Some((top, rest)) = bits.split_first() else {
        return told_word(net, words, marks, zero);
    };
    let _ = net.width(zero);
    let half = half_of(words.len(), rest.len(), marks.len().max(1));
    let (front, back) = words.split_at(half);
    let low = word_among(net, front, rest, marks, zero)?;
    let high = word_among(net, back, rest, marks, zero)?;
    let found = net.mux(*top, high, low)?;
    Ok(found)
}

/// The word with the number of the lowest bits of the address, by a tree over these bits.
fn word_by_bits(
    net: &mut Net,
    words: &[NodeId],
    addr: NodeId,
    count: usize,
    zero: NodeId,
) -> Result<NodeId, Memory>
    requires words { AreNodesOf net.old (width_at net.old zero) words.now }
    requires addr { IsNode net.old addr }
    requires zero { IsZero net.old zero }
    requires few { count ≤ 4 }
    requires within { count ≤ width_at net.old addr }
    requires enough { length words.now ≤ 2 ^ count }
    ensures adds { AddsNodes net.old net.new }
    ensures there { IfOk result (IsNodeOf net.new (width_at net.old zero)) }
    ensures value { IfOk result (λ id. (g : Given) → IsGiven net.old g → value_at net.new g id
        ≡ word_at (numbers_of net.old g words.now) (low count (value_at net.old g addr))) }
{
    let mut bits = [0u64; 4];
    let bits = &mut bits[..count];
    address_bits(net, addr, bits)?;
    let found = word_among(net, words, bits, &[], zero)?;
    Ok(found)
}

/// The same, by groups of sixteen words of which one node each for the lowest four bits tells one, and a tree over the
/// bits above: a gate less for each bit of a word than a tree alone.
fn word_by_groups(
    net: &mut Net,
    words: &[NodeId],
    addr: NodeId,
    count: usize,
    zero: NodeId,
) -> Result<NodeId, Memory>
    requires words { AreNodesOf net.old (width_at net.old zero) words.now }
    requires addr { IsNode net.old addr }
    requires zero { IsZero net.old zero }
    requires more { 4 < count }
    requires few { count ≤ 63 }
    requires within { count ≤ width_at net.old addr }
    requires enough { length words.now ≤ 2 ^ count }
    ensures adds { AddsNodes net.old net.new }
    ensures there { IfOk result (IsNodeOf net.new (width_at net.old zero)) }
    ensures value { IfOk result (λ id. (g : Given) → IsGiven net.old g → value_at net.new g id
        ≡ word_at (numbers_of net.old g words.now) (low count (value_at net.old g addr))) }
{
    let mut marks = [0u64; 16];
    mark_nodes(net, addr, &mut marks)?;
    let above = net.slice(addr, 4, count as u32 - 4)?;
    let mut bits = [0u64; 59];
    let bits = &mut bits[..count - 4];
    address_bits(net, above, bits)?;
    let found = word_among(net, words, bits, &marks, zero)?;
    Ok(found)
}

/// The word with the number of the lowest bits of the address.
fn word_by_low(
    net: &mut Net,
    words: &[NodeId],
    addr: NodeId,
    count: usize,
    zero: NodeId,
) -> Result<NodeId, Memory>
    requires words { AreNodesOf net.old (width_at net.old zero) words.now }
    requires addr { IsNode net.old addr }
    requires zero { IsZero net.old zero }
    requires few { count ≤ 63 }
    requires within { count ≤ width_at net.old addr }
    requires enough { length words.now ≤ 2 ^ count }
    ensures adds { AddsNodes net.old net.new }
    ensures there { IfOk result (IsNodeOf net.new (width_at net.old zero)) }
    ensures value { IfOk result (λ id. (g : Given) → IsGiven net.old g → value_at net.new g id
        ≡ word_at (numbers_of net.old g words.now) (low count (value_at net.old g addr))) }
{
    if count <= 4 {
        word_by_bits(net, words, addr, count, zero)
    } else {
        word_by_groups(net, words, addr, count, zero)
    }
}

/// The node where the bits of the address from `count` on are 0, and else the node that is 0.
fn where_low(
    net: &mut Net,
    addr: NodeId,
    count: u32,
    found: NodeId,
    zero: NodeId,
) -> Result<NodeId, Memory>
    requires addr { IsNode net.old addr }
    requires zero { IsZero net.old zero }
    requires found { IsNodeOf net.old (width_at net.old zero) found }
    ensures adds { AddsNodes net.old net.new }
    ensures there { IfOk result (IsNodeOf net.new (width_at net.old zero)) }
    ensures value { IfOk result (λ id. (g : Given) → IsGiven net.old g → value_at net.new g id
        ≡ (if value_at net.old g addr / 2 ^ count == 0 then value_at net.old g found else 0)) }
{
    if net.width(addr) <= count {
        return Ok(found);
    }
    let test = is_low(net, addr, count)?;
    let chosen = net.mux(test, found, zero)?;
    Ok(chosen)
}

/// The word at an address that isn't constant.
fn read_tree(net: &mut Net, words: &[NodeId], addr: NodeId, zero: NodeId) -> Result<NodeId, Memory>
    requires words { AreNodesOf net.old (width_at net.old zero) words.now }
    requires addr { IsNode net.old addr }
    requires zero { IsZero net.old zero }
    ensures adds { AddsNodes net.old net.new }
    ensures there { IfOk result (IsNodeOf net.new (width_at net.old zero)) }
    ensures value { IfOk result (λ id. (g : Given) → IsGiven net.old g
        → value_at net.new g id ≡ word_at (numbers_of net.old g words.now) (value_at net.old g addr)) }
{
    let count = bits_for(words.len()).min(net.width(addr) as usize);
    let (front, _) = words.split_at(reached(words.len(), count));
    let found = word_by_low(net, front, addr, count, zero)?;
    let chosen = where_low(net, addr, count as u32, found, zero)?;
    Ok(chosen)
}

/// The word with a number, and else the node that is 0.
fn word_with(words: &[NodeId], number: u128, zero: NodeId) -> NodeId
    ensures within { number < length words.now → result ≡ slice_index words.now number }
    ensures past { length words.now ≤ number → result ≡ zero }
{
    if number >= words.len() as u128 {
        return zero;
    }
    words[number as usize]
}

/// The word at the address among the words, without giving nodes back where no memory is left.
fn read_words(net: &mut Net, words: &[NodeId], addr: NodeId) -> Result<NodeId, Memory>
    requires some { 1 ≤ length words.now }
    requires words { AreWords net.old words.now }
    requires addr { IsNode net.old addr }
    ensures adds { AddsNodes net.old net.new }
    ensures there { IfOk result (IsNodeOf net.new (words_width net.old words.now)) }
    ensures value { IfOk result (λ id. (g : Given) → IsGiven net.old g
        → value_at net.new g id ≡ word_at (numbers_of net.old g words.now) (value_at net.old g addr)) }
{
    let zero = zero_of(net, words[0])?;
    if let Some(number) = constant_of(net, addr) {
        return Ok(word_with(words, number, zero));
    }
    if let Some(mem) = memory_of(net, words) {
        let word = net.read(mem, addr)?;
        return Ok(word);
    }
    let found = read_tree(net, words, addr, zero)?;
    Ok(found)
}

/// The word at the address, 0 past the last word. Where the words are those of a memory of the net it is read there.
pub fn read_after(net: &mut Net, words: &[NodeId], addr: NodeId) -> Result<NodeId, Memory>
    requires some { 1 ≤ length words.now }
    requires words { AreWords net.old words.now }
    requires addr { IsNode net.old addr }
    ensures adds { AddsNodes net.old net.new }
    ensures there { IfOk result (IsNodeOf net.new (words_width net.old words.now)) }
    ensures value { IfOk result (λ id. (g : Given) → IsGiven net.old g
        → value_at net.new g id ≡ word_at (numbers_of net.old g words.now) (value_at net.old g addr)) }
    ensures same { OnErr result (net.new ≡ net.old) }
{
    let nodes = net.nodes().len();
    let regs = net.regs().len();
    match read_words(net, words, addr) {
        Ok(id) => Ok(id),
        Err(fault) => {
            net.cut(nodes, regs);
            Err(fault)
        }
    }
}
