//! The nodes of channels, from those of the outputs.
#![tactic(auto, using(wn_net::proofs::Laws::additions))]

ghost use Rattle.std.specs.Prelude.{◌≡◌, ℕ, ◌+◌, ◌*◌, ◌<◌, ◌≤◌, length, IfOk, OnOk};
ghost use Rattle.wn_net.specs.Changes.{AddsNodes};
ghost use Rattle.rvfi_port.specs.Channels.{nodes_of};
ghost use Rattle.rvfi_port.specs.Fields.{channel_fields};
ghost use Rattle.rvfi_port.specs.Parts.{Reaches, AllReach, IsPart, AreParts, AreCut};

use crate::field::Field;
use crate::port::Channel;
use fv_text::{List, Memory};
use std::alloc::Global;
use wn_net::{Net, NodeId};

/// The channel's part of a field at a node.
fn field_node(net: &mut Net, whole: NodeId, channel: u32, field: Field) -> Result<NodeId, Memory>
    requires { Reaches net.old channel field whole }
    ensures adds { AddsNodes net.old net.new }
    ensures part { IfOk result (IsPart net.old net.new channel field whole) }
{
    let width = field.width();
    let node = net.slice(whole, channel * width, width)?;
    Ok(node)
}

/// The channel's parts of the outputs.
fn field_nodes(
    alloc: Global,
    net: &mut Net,
    wholes: &[NodeId],
    channel: u32,
    fields: &[Field],
) -> Result<Vec<NodeId>, Memory>
    requires { AllReach net.old channel fields.now wholes.now }
    ensures adds { AddsNodes net.old net.new }
    ensures parts { IfOk result (λ made. AreParts net.old net.new channel fields.now wholes.now made.items) }
{
    let mut made = Vec::new(alloc);
    for (place, field) in fields.iter().enumerate() {
        let node = field_node(net, wholes[place], channel, *field)?;
        made.push(node)?;
    }
    Ok(made)
}

/// A channel of these nodes, which are in the order of its fields.
fn channel_of(nodes: &[NodeId]) -> Channel
    requires { length nodes.now ≡ 19 }
    ensures { nodes_of result ≡ nodes.now }
{
    Channel {
        valid: nodes[0],
        order: nodes[1],
        insn: nodes[2],
        trap: nodes[3],
        halt: nodes[4],
        intr: nodes[5],
        rs1_addr: nodes[6],
        rs2_addr: nodes[7],
        rs1_rdata: nodes[8],
        rs2_rdata: nodes[9],
        rd_addr: nodes[10],
        rd_wdata: nodes[11],
        pc_rdata: nodes[12],
        pc_wdata: nodes[13],
        mem_addr: nodes[14],
        mem_rmask: nodes[15],
        mem_wmask: nodes[16],
        mem_rdata: nodes[17],
        mem_wdata: nodes[18],
    }
}

/// The nodes of a channel.
fn bind_channel(
    alloc: Global,
    net: &mut Net,
    wholes: &[NodeId],
    channel: u32,
) -> Result<Channel, Memory>
    requires { AllReach net.old channel channel_fields wholes.now }
    ensures adds { AddsNodes net.old net.new }
    ensures parts { IfOk result (λ c. AreParts net.old net.new channel channel_fields wholes.now (nodes_of c)) }
{
    let nodes = field_nodes(alloc, net, wholes, channel, &Field::CHANNEL)?;
    let channel = channel_of(nodes.as_slice());
    Ok(channel)
}

/// The nodes of all channels.
pub(crate) fn bind_channels(
    alloc: Global,
    net: &mut Net,
    wholes: &[NodeId],
    channels: u32,
) -> Result<List<Channel>, Memory>
    requires { (k : ℕ) → k < channels → AllReach net.old k channel_fields wholes.now }
    ensures adds { AddsNodes net.old net.new }
    ensures many { IfOk result (λ made. length made ≡ channels) }
    ensures each { IfOk result (AreCut net.old net.new wholes.now 0) }
{
    let mut made = List::new(alloc);
    for channel in 0..channels {
        let bound = bind_channel(alloc, net, wholes, channel)?;
        made.push(bound)?;
    }
    Ok(made)
}
