//! A word after writes, each of which acts on it where its address is the word's.
#![tactic(auto, using(wn_net::proofs::Laws::additions))]

ghost use Rattle.std.specs.Prelude.{
  ◌≡◌,
  ◌==◌,
  ◌&&◌,
  ◌<◌,
  ◌≤◌,
  ℕ,
  List,
  bit_and,
  bit_or,
  if◌then◌else◌,
  length,
  IfOk,
};
ghost use Rattle.std.specs.List.{AllByRecursion};
ghost use Rattle.fv_bits.specs.Bits.{bit, complement, masked};
ghost use Rattle.wn_net.specs.Value.{Given, word_at};
ghost use Rattle.wn_net.specs.Given.{IsGiven};
ghost use Rattle.wn_net.specs.Net.{IsNode, IsNodeOf, IsWriteOf, value_at, width_at};
ghost use Rattle.wn_net.specs.Changes.{AddsNodes, Shows};
ghost use Rattle.wn_chain.specs.Writes.{written_by};

use fv_text::Memory;
use wn_net::{MemWrite, Net, NodeId};

/// 1 where two addresses are the same, of which the second isn't narrower.
fn same_padded(net: &mut Net, narrow: NodeId, wide: NodeId) -> Result<NodeId, Memory>
    requires narrow { IsNode net.old narrow }
    requires wide { IsNode net.old wide }
    requires wider { width_at net.old narrow ≤ width_at net.old wide }
    ensures adds { AddsNodes net.old net.new }
    ensures shows { IfOk result (Shows net.old net.new 1
        (λ g. bit (value_at net.old g narrow == value_at net.old g wide))) }
{
    let bits = net.width(wide);
    let padded = net.zext(narrow, bits)?;
    let same = net.eq(padded, wide)?;
    Ok(same)
}

/// 1 where two addresses, each of its own width, are the same.
fn same_address(net: &mut Net, a: NodeId, b: NodeId) -> Result<NodeId, Memory>
    requires left { IsNode net.old a }
    requires right { IsNode net.old b }
    ensures adds { AddsNodes net.old net.new }
    ensures shows { IfOk result (Shows net.old net.new 1
        (λ g. bit (value_at net.old g a == value_at net.old g b))) }
{
    let left = net.width(a);
    let right = net.width(b);
    if left <= right {
        Ok(same_padded(net, a, b)?)
    } else {
        Ok(same_padded(net, b, a)?)
    }
}

/// 1 where a write acts on the word at an address.
fn acts_at(net: &mut Net, write: &MemWrite, addr: NodeId) -> Result<NodeId, Memory>
    requires enable { IsNodeOf net.old 1 write.now.enable }
    requires own { IsNode net.old write.now.addr }
    requires addr { IsNode net.old addr }
    ensures adds { AddsNodes net.old net.new }
    ensures shows { IfOk result (Shows net.old net.new 1
        (λ g. bit (value_at net.old g write.now.enable == 1
        && value_at net.old g write.now.addr == value_at net.old g addr))) }
{
    // Asked for what it says of the net: numbers are below 2 to their widths.
    let _width = net.width(addr);
    let same = same_address(net, write.addr, addr)?;
    let acts = net.and(write.enable, same)?;
    Ok(acts)
}

/// A vector with other bits where a mask is set.
fn replaced(net: &mut Net, vector: NodeId, mask: NodeId, bits: NodeId) -> Result<NodeId, Memory>
    requires vector { IsNode net.old vector }
    requires mask { IsNodeOf net.old (width_at net.old vector) mask }
    requires bits { IsNodeOf net.old (width_at net.old vector) bits }
    ensures adds { AddsNodes net.old net.new }
    ensures shows { IfOk result (Shows net.old net.new (width_at net.old vector)
        (λ g. bit_or (value_at net.old g bits)
        (bit_and (complement (width_at net.old vector) (value_at net.old g mask)) (value_at net.old g vector)))) }
{
    let outside = net.not(mask)?;
    let kept = net.and(outside, vector)?;
    let whole = net.or(bits, kept)?;
    Ok(whole)
}

/// The word with the bits of a write.
fn changed_word(net: &mut Net, word: NodeId, write: &MemWrite) -> Result<NodeId, Memory>
    requires word { IsNode net.old word }
    requires mask { IsNodeOf net.old (width_at net.old word) write.now.mask }
    requires value { IsNodeOf net.old (width_at net.old word) write.now.value }
    ensures adds { AddsNodes net.old net.new }
    ensures shows { IfOk result (Shows net.old net.new (width_at net.old word)
        (λ g. masked (width_at net.old word) (value_at net.old g write.now.mask)
        (value_at net.old g word) (value_at net.old g write.now.value))) }
{
    let put = net.and(write.mask, write.value)?;
    let changed = replaced(net, word, write.mask, put)?;
    Ok(changed)
}

/// The word after a write that acts on it where `acts` is 1.
fn word_after(net: &mut Net, word: NodeId, acts: NodeId, write: &MemWrite) -> Result<NodeId, Memory>
    requires word { IsNode net.old word }
    requires acts { IsNodeOf net.old 1 acts }
    requires mask { IsNodeOf net.old (width_at net.old word) write.now.mask }
    requires value { IsNodeOf net.old (width_at net.old word) write.now.value }
    ensures adds { AddsNodes net.old net.new }
    ensures shows { IfOk result (Shows net.old net.new (width_at net.old word)
        (λ g. if value_at net.old g acts == 1
        then masked (width_at net.old word) (value_at net.old g write.now.mask)
        (value_at net.old g word) (value_at net.old g write.now.value)
        else value_at net.old g word)) }
{
    let changed = changed_word(net, word, write)?;
    let after = net.mux(acts, changed, word)?;
    Ok(after)
}

/// The word at an address after a write.
fn word_after_write(
    net: &mut Net,
    word: NodeId,
    write: &MemWrite,
    addr: NodeId,
) -> Result<NodeId, Memory>
    requires word { IsNode net.old word }
    requires write { IsWriteOf net.old (width_at net.old word) write.now }
    requires addr { IsNode net.old addr }
    ensures adds { AddsNodes net.old net.new }
    ensures shows { IfOk result (Shows net.old net.new (width_at net.old word)
        (λ g. if value_at net.old g write.now.enable == 1
        && value_at net.old g write.now.addr == value_at net.old g addr
        then masked (width_at net.old word) (value_at net.old g write.now.mask)
        (value_at net.old g word) (value_at net.old g write.now.value)
        else value_at net.old g word)) }
{
    let acts = acts_at(net, write, addr)?;
    let after = word_after(net, word, acts, write)?;
    Ok(after)
}

/// The word at an address after writes, the oldest first. What is made looks at the newest of them first.
pub(crate) fn word_after_all(
    net: &mut Net,
    word: NodeId,
    writes: &[MemWrite],
    addr: NodeId,
) -> Result<NodeId, Memory>
    requires word { IsNode net.old word }
    requires writes { AllByRecursion (IsWriteOf net.old (width_at net.old word)) writes.now }
    requires addr { IsNode net.old addr }
    ensures adds { AddsNodes net.old net.new }
    ensures there { IfOk result (IsNodeOf net.new (width_at net.old word)) }
    ensures value { IfOk result (λ id. (g : Given) (words : List ℕ) → IsGiven net.old g
        → value_at net.old g addr < length words
        → value_at net.old g word ≡ word_at words (value_at net.old g addr)
        → value_at net.new g id
        ≡ word_at (written_by net.old g (width_at net.old word) words writes.now)
        (value_at net.old g addr)) }
{
    let mut found = word;
    for write in writes {
        found = word_after_write(net, found, write, addr)?;
    }
    Ok(found)
}
