#![tactic(auto, using(wn_net::proofs::Laws::additions))]

ghost use Rattle.std.specs.Prelude.{◌≡◌, ◌+◌, ◌-◌, ◌*◌, ◌<◌, ◌≤◌, ◌^◌, length, take, IfOk, OnErr};
ghost use Rattle.wn_net.specs.Net.{IsNet, IsNodeOf, AreNodesOf};
ghost use Rattle.wn_net.specs.Changes.{AddsRegs};
ghost use Rattle.ck_history.specs.Lines.{IsBehind, IsHistory, AddsKnown};

use fv_text::Memory;
use std::alloc::Global;
use wn_net::{Init, Net, NodeId};

/// The node as it was one cycle ago.
fn delay(net: &mut Net, node: NodeId) -> Result<NodeId, Memory>
    requires node { IsNodeOf net.old 102 node }
    requires room { length net.old.regs < 2 ^ 32 - 1 }
    ensures adds { IfOk result (λ id. AddsKnown net.old net.new 1) }
    ensures there { IfOk result (IsNodeOf net.new 102) }
    ensures behind { IfOk result (IsBehind net.new node) }
    ensures whole { IsNet net.old }
    ensures same { OnErr result (net.new ≡ net.old) }
{
    let reg = net.regs().len() as u32;
    let id = net.reg(102, Init::Known(0))?;
    net.set_next(reg, node);
    Ok(id)
}

/// The nodes of this cycle, then those that show what they had one cycle ago, two cycles ago and so on.
pub fn history(
    alloc: Global,
    net: &mut Net,
    words: &[NodeId],
    cycles: u32,
) -> Result<Vec<NodeId>, Memory>
    requires words { AreNodesOf net.old 102 words.now }
    requires few { length words.now ≤ 2 }
    requires cycles { cycles ≤ 100 }
    requires room { length net.old.regs ≤ 50000000 }
    ensures adds { AddsRegs net.old net.new }
    ensures known { IfOk result (λ made. AddsKnown net.old net.new (length words.now * cycles)) }
    ensures nodes { IfOk result (λ made. AreNodesOf net.new 102 made.items) }
    ensures many { IfOk result (λ made. length made.items ≡ length words.now * (cycles + 1)) }
    ensures first { IfOk result (λ made. take (length words.now) made.items ≡ words.now) }
    ensures behind { IfOk result (λ made. IsHistory net.new (length words.now) made.items) }
{
    let mut made = Vec::from_slice(alloc, words)?;
    for place in 0..words.len() * cycles as usize {
        let id = delay(net, made[place])?;
        made.push(id)?;
    }
    Ok(made)
}
