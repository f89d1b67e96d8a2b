//! Whether a word is read as its bytes were stored, over the words of what was kept of earlier retirements, of which
//! the last one comes first.
#![tactic(auto, using(wn_net::proofs::Laws::additions, ck_history::proofs::Laws::truths))]

ghost use Rattle.std.specs.Prelude.{◌≡◌, ◌==◌, ◌+◌, ◌<◌, ◌&&◌, ◌||◌, not, IfOk};
ghost use Rattle.fv_bits.specs.Bits.{part};
ghost use Rattle.wn_net.specs.Value.{Given};
ghost use Rattle.wn_net.specs.Net.{IsNodeOf, AreNodesOf, value_at};
ghost use Rattle.wn_net.specs.Changes.{AddsNodes};
ghost use Rattle.ck_history.specs.Truths.{Tells};
ghost use Rattle.rvfi_port.specs.Channels.{retire_at};
ghost use Rattle.ck_history.specs.Entries.{AreEntryNodes, entry_at};
ghost use Rattle.ck_history.specs.Searches as searches;
ghost use Rattle.rvfi_port.specs.Ports.{AreChannelNodes};
ghost use Rattle.ck_gen.specs.Kept as kept;
ghost use Rattle.ck_gen.specs.Monitors.{TellsOver};

use crate::earlier::or_agrees;
use ck_history::{
    EntryNodes, KeyTest, SmallTest, Sought, WordTest, both, either, is_number, is_same, turned,
};
use fv_text::Memory;
use rvfi_port::Channel;
use wn_net::{Net, NodeId};

/// Whether a mask of 4 bits lacks this bit.
fn lacks(net: &mut Net, mask: NodeId, index: u32) -> Result<NodeId, Memory>
    requires mask { IsNodeOf net.old 4 mask }
    requires index { index < 4 }
    ensures adds { AddsNodes net.old net.new }
    ensures tells { IfOk result (Tells net.old net.new (λ g. not (part index 1 (value_at net.old g mask) == 1))) }
{
    let bit = net.slice(mask, index, 1)?;
    let id = turned(net, bit)?;
    Ok(id)
}

/// Whether the byte isn't read, or is read as it was last stored.
fn byte_as_stored(
    net: &mut Net,
    mask: NodeId,
    own: EntryNodes,
    index: u32,
    words: &[NodeId],
) -> Result<NodeId, Memory>
    requires mask { IsNodeOf net.old 4 mask }
    requires own { AreEntryNodes net.old own }
    requires index { index < 4 }
    requires words { AreNodesOf net.old 102 words.now }
    ensures adds { AddsNodes net.old net.new }
    ensures tells { IfOk result (TellsOver net.old net.new words.now
        (λ g es. not (part index 1 (value_at net.old g mask) == 1)
        || searches.first_agrees (kept.sought_store index) (entry_at net.old g own) es)) }
{
    let idle = lacks(net, mask, index)?;
    let sought = Sought {
        key: KeyTest::Same,
        small: SmallTest::Bit(index),
        word: WordTest::Byte(index),
    };
    let id = or_agrees(net, idle, sought, own, words)?;
    Ok(id)
}

/// Whether two bytes are.
fn two_as_stored(
    net: &mut Net,
    mask: NodeId,
    own: EntryNodes,
    index: u32,
    words: &[NodeId],
) -> Result<NodeId, Memory>
    requires mask { IsNodeOf net.old 4 mask }
    requires own { AreEntryNodes net.old own }
    requires index { index < 3 }
    requires words { AreNodesOf net.old 102 words.now }
    ensures adds { AddsNodes net.old net.new }
    ensures tells { IfOk result (TellsOver net.old net.new words.now
        (λ g es. (not (part index 1 (value_at net.old g mask) == 1)
        || searches.first_agrees (kept.sought_store index) (entry_at net.old g own) es)
        && (not (part (index + 1) 1 (value_at net.old g mask) == 1)
        || searches.first_agrees (kept.sought_store (index + 1)) (entry_at net.old g own) es))) }
{
    let first = byte_as_stored(net, mask, own, index, words)?;
    let second = byte_as_stored(net, mask, own, index + 1, words)?;
    let id = both(net, first, second)?;
    Ok(id)
}

/// What is compared with stores.
fn own_store(net: &mut Net, channel: &Channel) -> Result<EntryNodes, Memory>
    requires { AreChannelNodes net.old channel.now }
    ensures adds { AddsNodes net.old net.new }
    ensures nodes { IfOk result (AreEntryNodes net.new) }
    ensures value { IfOk result (λ own. (g : Given) → entry_at net.new g own
        ≡ kept.entry (value_at net.old g channel.now.valid) (value_at net.old g channel.now.mem_addr)
        (value_at net.old g channel.now.rd_addr) (value_at net.old g channel.now.mem_rdata)) }
{
    let key = net.zext(channel.mem_addr, 64)?;
    Ok(EntryNodes {
        there: channel.valid,
        key,
        small: channel.rd_addr,
        word: channel.mem_rdata,
    })
}

/// Whether all four bytes are.
fn all_as_stored(net: &mut Net, channel: &Channel, words: &[NodeId]) -> Result<NodeId, Memory>
    requires channel { AreChannelNodes net.old channel.now }
    requires words { AreNodesOf net.old 102 words.now }
    ensures adds { AddsNodes net.old net.new }
    ensures tells { IfOk result (TellsOver net.old net.new words.now (λ g es. kept.all_as_stored
        (value_at net.old g channel.now.valid) (retire_at net.old g channel.now) es)) }
{
    let own = own_store(net, channel)?;
    let low = two_as_stored(net, channel.mem_rmask, own, 0, words)?;
    let high = two_as_stored(net, channel.mem_rmask, own, 2, words)?;
    let id = both(net, low, high)?;
    Ok(id)
}

/// Whether the address isn't the probed one.
fn is_elsewhere(net: &mut Net, addr: NodeId, probed: NodeId) -> Result<NodeId, Memory>
    requires addr { IsNodeOf net.old 32 addr }
    requires probed { IsNodeOf net.old 32 probed }
    ensures adds { AddsNodes net.old net.new }
    ensures tells { IfOk result (Tells net.old net.new
        (λ g. not (value_at net.old g addr == value_at net.old g probed))) }
{
    let same = is_same(net, addr, probed)?;
    let id = turned(net, same)?;
    Ok(id)
}

/// Whether it reads another address than the probed one, or its bytes are read as they were last stored.
pub(crate) fn loads_what_was_stored(
    net: &mut Net,
    channel: &Channel,
    probed: NodeId,
    words: &[NodeId],
) -> Result<NodeId, Memory>
    requires channel { AreChannelNodes net.old channel.now }
    requires probed { IsNodeOf net.old 32 probed }
    requires words { AreNodesOf net.old 102 words.now }
    ensures adds { AddsNodes net.old net.new }
    ensures tells { IfOk result (TellsOver net.old net.new words.now (λ g es. kept.loaded_as_stored
        (value_at net.old g channel.now.valid) (retire_at net.old g channel.now) es (value_at net.old g probed))) }
{
    let elsewhere = is_elsewhere(net, channel.mem_addr, probed)?;
    let stored = all_as_stored(net, channel, words)?;
    let id = either(net, elsewhere, stored)?;
    Ok(id)
}
