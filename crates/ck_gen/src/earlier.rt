//! Properties that are about earlier retirements, over the words of what was kept of these, the last one first.
#![tactic(auto, using(wn_net::proofs::Laws::additions, ck_history::proofs::Laws::truths))]

ghost use Rattle.std.specs.Prelude.{◌≡◌, ◌==◌, ◌<◌, ◌&&◌, ◌||◌, not, IfOk};
ghost use Rattle.wn_net.specs.Net.{IsNodeOf, AreNodesOf, value_at};
ghost use Rattle.wn_net.specs.Changes.{AddsNodes};
ghost use Rattle.ck_history.specs.Truths.{is_one};
ghost use Rattle.rvfi_port.specs.Channels.{retire_at};
ghost use Rattle.ck_history.specs.Entries.{AreEntryNodes, entry_at};
ghost use Rattle.ck_history.specs.Searches as searches;
ghost use Rattle.rvfi_port.specs.Ports.{AreChannelNodes, IsDmemNode};
ghost use Rattle.ck_gen.specs.Retirements.{dmem_addr_at};
ghost use Rattle.ck_gen.specs.Kept as kept;
ghost use Rattle.ck_gen.specs.Monitors.{TellsOver};

use crate::stored::loads_what_was_stored;
use ck_cfg::CheckKind;
use ck_history::{
    EntryNodes, KeyTest, SmallTest, Sought, WordTest, both, either, first_agrees, is_number,
};
use fv_text::Memory;
use rvfi_port::Channel;
use wn_net::{Net, NodeId};

/// Whether this is so, or the first entry that is sought agrees.
pub(crate) fn or_agrees(
    net: &mut Net,
    test: NodeId,
    sought: Sought,
    own: EntryNodes,
    words: &[NodeId],
) -> Result<NodeId, Memory>
    requires test { IsNodeOf net.old 1 test }
    requires sought { searches.IsSought sought }
    requires own { AreEntryNodes net.old own }
    requires words { AreNodesOf net.old 102 words.now }
    ensures adds { AddsNodes net.old net.new }
    ensures tells { IfOk result (TellsOver net.old net.new words.now
        (λ g es. is_one net.old g test || searches.first_agrees sought (entry_at net.old g own) es)) }
{
    let found = first_agrees(net, sought, own, words)?;
    let id = either(net, test, found)?;
    Ok(id)
}

/// Whether the entry's small number is 0, or the first entry that is sought agrees.
fn zero_or_agrees(
    net: &mut Net,
    sought: Sought,
    own: EntryNodes,
    words: &[NodeId],
) -> Result<NodeId, Memory>
    requires sought { searches.IsSought sought }
    requires own { AreEntryNodes net.old own }
    requires words { AreNodesOf net.old 102 words.now }
    ensures adds { AddsNodes net.old net.new }
    ensures tells { IfOk result (TellsOver net.old net.new words.now
        (λ g es. value_at net.old g own.small == 0 || searches.first_agrees sought (entry_at net.old g own) es)) }
{
    let zero = is_number(net, own.small, 0)?;
    let id = or_agrees(net, zero, sought, own, words)?;
    Ok(id)
}

/// Whether both sources are read as they were last written, by one of a lower order.
fn both_as_written(net: &mut Net, channel: &Channel, words: &[NodeId]) -> Result<NodeId, Memory>
    requires channel { AreChannelNodes net.old channel.now }
    requires words { AreNodesOf net.old 102 words.now }
    ensures adds { AddsNodes net.old net.new }
    ensures tells { IfOk result (TellsOver net.old net.new words.now (λ g es. kept.both_as_written
        (value_at net.old g channel.now.valid) (retire_at net.old g channel.now) es)) }
{
    let sought = Sought {
        key: KeyTest::Below,
        small: SmallTest::Same,
        word: WordTest::Whole,
    };
    let first = EntryNodes {
        there: channel.valid,
        key: channel.order,
        small: channel.rs1_addr,
        word: channel.rs1_rdata,
    };
    let second = EntryNodes {
        small: channel.rs2_addr,
        word: channel.rs2_rdata,
        ..first
    };
    let first = zero_or_agrees(net, sought, first, words)?;
    let second = zero_or_agrees(net, sought, second, words)?;
    let id = both(net, first, second)?;
    Ok(id)
}

/// Whether it is where the one of the order before it went on, but for an interrupt.
fn goes_on(net: &mut Net, channel: &Channel, words: &[NodeId]) -> Result<NodeId, Memory>
    requires channel { AreChannelNodes net.old channel.now }
    requires words { AreNodesOf net.old 102 words.now }
    ensures adds { AddsNodes net.old net.new }
    ensures tells { IfOk result (TellsOver net.old net.new words.now (λ g es. kept.goes_on_so
        (value_at net.old g channel.now.valid) (retire_at net.old g channel.now) es)) }
{
    let sought = Sought {
        key: KeyTest::Before,
        small: SmallTest::Any,
        word: WordTest::Whole,
    };
    let own = EntryNodes {
        there: channel.valid,
        key: channel.order,
        small: channel.rd_addr,
        word: channel.pc_rdata,
    };
    let id = or_agrees(net, channel.intr, sought, own, words)?;
    Ok(id)
}

/// Whether the one of the order behind it, where that is no interrupt, is where it went on.
fn is_gone_on_from(net: &mut Net, channel: &Channel, words: &[NodeId]) -> Result<NodeId, Memory>
    requires channel { AreChannelNodes net.old channel.now }
    requires words { AreNodesOf net.old 102 words.now }
    ensures adds { AddsNodes net.old net.new }
    ensures tells { IfOk result (TellsOver net.old net.new words.now (λ g es. kept.gone_on_so
        (value_at net.old g channel.now.valid) (retire_at net.old g channel.now) es)) }
{
    let sought = Sought {
        key: KeyTest::Behind,
        small: SmallTest::Zero,
        word: WordTest::Whole,
    };
    let own = EntryNodes {
        there: channel.valid,
        key: channel.order,
        small: channel.rd_addr,
        word: channel.pc_wdata,
    };
    let id = first_agrees(net, sought, own, words)?;
    Ok(id)
}

/// Whether none of a higher order has read the register that it writes.
fn writes_before_reads(net: &mut Net, channel: &Channel, words: &[NodeId]) -> Result<NodeId, Memory>
    requires channel { AreChannelNodes net.old channel.now }
    requires words { AreNodesOf net.old 102 words.now }
    ensures adds { AddsNodes net.old net.new }
    ensures tells { IfOk result (TellsOver net.old net.new words.now (λ g es. kept.not_read_early
        (value_at net.old g channel.now.valid) (retire_at net.old g channel.now) es)) }
{
    let sought = Sought {
        key: KeyTest::Above,
        small: SmallTest::OneOfTwo,
        word: WordTest::Never,
    };
    let own = EntryNodes {
        there: channel.valid,
        key: channel.order,
        small: channel.rd_addr,
        word: channel.rd_wdata,
    };
    let id = zero_or_agrees(net, sought, own, words)?;
    Ok(id)
}

/// Whether the retirement in a channel holds what a check of the kind asks of it and those before it.
pub(crate) fn holds(
    net: &mut Net,
    kind: CheckKind,
    channel: &Channel,
    dmem: Option<NodeId>,
    words: &[NodeId],
) -> Result<NodeId, Memory>
    requires kind { kept.LooksBack kind }
    requires channel { AreChannelNodes net.old channel.now }
    requires dmem { IsDmemNode net.old dmem }
    requires words { AreNodesOf net.old 102 words.now }
    ensures adds { AddsNodes net.old net.new }
    ensures tells { IfOk result (TellsOver net.old net.new words.now (λ g es. kept.holds_over
        (value_at net.old g channel.now.valid) (retire_at net.old g channel.now) es (dmem_addr_at net.old g dmem)
        kind)) }
{
    match kind {
        CheckKind::Reg => both_as_written(net, channel, words),
        CheckKind::PcFwd => goes_on(net, channel, words),
        CheckKind::PcBwd => is_gone_on_from(net, channel, words),
        CheckKind::Causal => writes_before_reads(net, channel, words),
        _ => match dmem {
            Some(probed) => loads_what_was_stored(net, channel, probed, words),
            None => Err(Memory),
        },
    }
}
