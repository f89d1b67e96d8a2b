//! The monitor of a row.
#![tactic(auto, using(rv_circ::proofs::ChannelLemmas::channels))]

ghost use Rattle.std.specs.Prelude.{◌≡◌, ◌&&◌, IfOk, OnErr};
ghost use Rattle.fv_bits.specs.Bits.{bit};
ghost use Rattle.wn_net.specs.Changes.{AddsNodes, Shows};
ghost use Rattle.rvfi_port.specs.Channels.{retire_at, retires};
ghost use Rattle.rvfi_port.specs.Ports.{AreChannelNodes};
ghost use Rattle.rv_zb.specs.Monitors.{disagrees};

use crate::circuit::zb_circuit;
use crate::row::ZbRow;
use fv_text::Memory;
use rv_circ::agreement;
use rvfi_port::Channel;
use wn_net::{Net, NodeId};

/// 1 where the channel's word is one of the row, and what the channel shows isn't what the row does.
fn disagreement(net: &mut Net, channel: &Channel, row: ZbRow) -> Result<NodeId, Memory>
    requires { AreChannelNodes net.old channel.now }
    ensures adds { AddsNodes net.old net.new }
    ensures shows { IfOk result (Shows net.old net.new 1
        (λ g. bit (disagrees row (retire_at net.old g channel.now)))) }
{
    let effect = zb_circuit(net, channel, row)?;
    let agrees = agreement(net, channel, &effect)?;
    let differs = net.not(agrees)?;
    let test = net.and(effect.hit, differs)?;
    Ok(test)
}

fn add_monitor(net: &mut Net, channel: &Channel, row: ZbRow) -> Result<NodeId, Memory>
    requires { AreChannelNodes net.old channel.now }
    ensures adds { AddsNodes net.old net.new }
    ensures shows { IfOk result (Shows net.old net.new 1 (λ g. bit (retires net.old g channel.now
        && disagrees row (retire_at net.old g channel.now)))) }
{
    let _ = net.width(channel.valid);
    let differs = disagreement(net, channel, row)?;
    let test = net.and(channel.valid, differs)?;
    Ok(test)
}

/// 1 exactly where the channel retires a word of the row that doesn't agree with what the row does. After want of
/// memory the net is as before.
pub fn zb_monitor(net: &mut Net, channel: &Channel, row: ZbRow) -> Result<NodeId, Memory>
    requires { AreChannelNodes net.old channel.now }
    ensures adds { AddsNodes net.old net.new }
    ensures shows { IfOk result (Shows net.old net.new 1 (λ g. bit (retires net.old g channel.now
        && disagrees row (retire_at net.old g channel.now)))) }
    ensures same { OnErr result (net.new ≡ net.old) }
{
    let nodes = net.nodes().len();
    let regs = net.regs().len();
    match add_monitor(net, channel, row) {
        Ok(test) => Ok(test),
        Err(fault) => {
            net.cut(nodes, regs);
            Err(fault)
        }
    }
}
