//! What is read of a memory as a chain of its writes.

ghost use Rattle.std.specs.Prelude.{◌≡◌, ◌≤◌, length, IfOk, IfSome, OnOk};
ghost use Rattle.std.specs.List.{AllByRecursion};
ghost use Rattle.wn_net.specs.Net.{AreNodesOf, IsNode, IsWriteOf};
ghost use Rattle.wn_mem.specs.Words.{AreWords, words_width};
ghost use Rattle.wn_chain.specs.Chains.{IsChain};

use crate::part::{node_at, node_of, short_at};
use fv_text::{List, Memory};
use std::alloc::Global;
use wn_chain::Chain;
use wn_net::{MemWrite, Net, NodeId};

/// The nodes that the words of a part name, from the fourth word on; None where there is none, or one isn't there or
/// has another width.
fn nodes_of(
    alloc: Global,
    net: &Net,
    width: u32,
    part: &str,
) -> Result<Option<List<NodeId>>, Memory>
    ensures { IfOk result (λ o. IfSome o (λ nodes. (1 ≤ length nodes) × AreNodesOf net.now width nodes)) }
{
    let mut nodes = List::new(alloc);
    for word in part.split(' ').skip(3) {
        let id = node_of(word);
        if !net.has(id) || net.width(id) != width {
            return Ok(None);
        }
        nodes.push(id)?;
    }
    if nodes.len() == 0 {
        return Ok(None);
    }
    Ok(Some(nodes))
}

/// The chain with writes behind it, the first of them the oldest.
fn push_all(chain: &mut Chain, net: &Net, writes: &[MemWrite]) -> Result<(), Memory>
    requires chain { IsChain net.now chain.old }
    requires writes { AllByRecursion (IsWriteOf net.now (words_width net.now chain.old.words)) writes.now }
    ensures { OnOk result (IsChain net.now chain.new) }
{
    for write in writes {
        chain.push(net, write)?;
    }
    Ok(())
}

/// Reads at a node words behind writes. The last node is then what is read.
fn read_behind(
    alloc: Global,
    net: &mut Net,
    words: List<NodeId>,
    writes: &[MemWrite],
    addr: NodeId,
) -> Result<(), Memory>
    requires some { 1 ≤ length words }
    requires words { AreWords net.old words }
    requires writes { AllByRecursion (IsWriteOf net.old (words_width net.old words)) writes.now }
    requires addr { IsNode net.old addr }
{
    let mut chain = Chain::start(alloc, words);
    push_all(&mut chain, net, writes)?;
    let read = chain.read(net, addr)?;
    net.zext(read, net.width(read))?;
    Ok(())
}

/// Reads at the node of the third word a chain that begins with the nodes named behind it and has the writes to the
/// memory of the second word, all of one cycle. Whether the part fits the net.
pub(crate) fn make(alloc: Global, net: &mut Net, part: &str) -> Result<bool, Memory> {
    let addr = node_at(part, 2);
    let mems = net.mems();
    let Some(mem) = mems.get(short_at(part, 1) as usize) else {
        return Ok(false);
    };
    let writes = Vec::from_slice(alloc, mem.writes.as_slice())?;
    let Some(words) = nodes_of(alloc, net, mem.width, part)? else {
        return Ok(false);
    };
    if !net.has(addr) {
        return Ok(false);
    }
    read_behind(alloc, net, words, writes.as_slice(), addr)?;
    Ok(true)
}
