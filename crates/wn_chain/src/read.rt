//! One read of words behind writes.
#![tactic(auto, using(wn_net::proofs::Laws::additions))]

ghost use Rattle.std.specs.Prelude.{◌≡◌, ◌<◌, ◌≤◌, nat_lt, if◌then◌else◌, length, IfOk};
ghost use Rattle.std.specs.List.{AllByRecursion};
ghost use Rattle.fv_text.specs.Word.{number};
ghost use Rattle.wn_net.specs.Value.{Given, word_at};
ghost use Rattle.wn_net.specs.Given.{IsGiven};
ghost use Rattle.wn_net.specs.Net.{IsNode, IsNodeOf, IsWriteOf, value_at, width_at};
ghost use Rattle.wn_net.specs.Changes.{AddsNodes, Shows};
ghost use Rattle.wn_mem.specs.Words.{AreWords, words_width, numbers_of};
ghost use Rattle.wn_chain.specs.Writes.{written_by};

use crate::writes::word_after_all;
use fv_text::{Memory, Word};
use wn_mem::read_after;
use wn_net::{MemWrite, Net, NodeId};

/// One node where an address is below a number of its width, and else another.
fn where_less(
    net: &mut Net,
    addr: NodeId,
    limit: Word,
    found: NodeId,
    other: NodeId,
) -> Result<NodeId, Memory>
    requires addr { IsNode net.old addr }
    requires limit { limit.width ≡ width_at net.old addr }
    requires found { IsNode net.old found }
    requires other { IsNodeOf net.old (width_at net.old found) other }
    ensures adds { AddsNodes net.old net.new }
    ensures shows { IfOk result (Shows net.old net.new (width_at net.old found)
        (λ g. if nat_lt (value_at net.old g addr) (number limit) then value_at net.old g found
        else value_at net.old g other)) }
{
    let bound = net.konst(limit)?;
    let below = net.ult(addr, bound)?;
    let chosen = net.mux(below, found, other)?;
    Ok(chosen)
}

/// One node where an address is below a count, and else another.
fn where_below(
    net: &mut Net,
    addr: NodeId,
    count: usize,
    found: NodeId,
    other: NodeId,
) -> Result<NodeId, Memory>
    requires addr { IsNode net.old addr }
    requires found { IsNode net.old found }
    requires other { IsNodeOf net.old (width_at net.old found) other }
    ensures adds { AddsNodes net.old net.new }
    ensures shows { IfOk result (Shows net.old net.new (width_at net.old found)
        (λ g. if nat_lt (value_at net.old g addr) count then value_at net.old g found
        else value_at net.old g other)) }
{
    let width = net.width(addr);
    match Word::new(width, count as u128) {
        // Each address of the width is below the count.
        None => Ok(found),
        Some(limit) => Ok(where_less(net, addr, limit, found, other)?),
    }
}

/// The word at an address after writes to words, the oldest write first; 0 past the last word.
pub(crate) fn read_written(
    net: &mut Net,
    words: &[NodeId],
    writes: &[MemWrite],
    addr: NodeId,
) -> Result<NodeId, Memory>
    requires some { 1 ≤ length words.now }
    requires words { AreWords net.old words.now }
    requires writes { AllByRecursion (IsWriteOf net.old (words_width net.old words.now)) writes.now }
    requires addr { IsNode net.old addr }
    ensures adds { AddsNodes net.old net.new }
    ensures there { IfOk result (IsNodeOf net.new (words_width net.old words.now)) }
    ensures value { IfOk result (λ id. (g : Given) → IsGiven net.old g → value_at net.new g id
        ≡ word_at (written_by net.old g (words_width net.old words.now) (numbers_of net.old g words.now) writes.now)
        (value_at net.old g addr)) }
{
    let first = read_after(net, words, addr)?;
    let found = word_after_all(net, first, writes, addr)?;
    let read = where_below(net, addr, words.len(), found, first)?;
    Ok(read)
}
