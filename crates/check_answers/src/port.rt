//! A net whose nodes are inputs alone, one for each field of a port, and the tests that a port is of a net.

ghost use Rattle.std.specs.Prelude.{IsTrue, ◌<◌, ◌^◌};
ghost use Rattle.std.specs.List.{AllByRecursion};
ghost use Rattle.wn_net.specs.Net.{IsNodeOf, AreNodesWith};
ghost use Rattle.rvfi_port.specs.Ports.{AreChannelNodes, AreImemNodes, ArePortNodes, IsDmemNode};
ghost use Rattle.ck_gen.specs.Monitors.{HasProbe};

use anyhow::{Result, bail};
use ck_cfg::CheckKind;
use fv_text::{List, Memory};
use rvfi_port::{Channel, Field, Port};
use std::alloc::Global;
use wn_net::{InputKind, Net, NodeId};

/// The fields of the probes, in the order of their inputs.
const PROBES: [Field; 3] = [Field::ImemAddr, Field::ImemData, Field::DmemAddr];

/// The inputs are the first nodes: the fields of each channel in their order, then those of the probes.
pub(crate) fn net_of_inputs(alloc: Global, channels: u32) -> Result<Net> {
    let mut net = Net::new(alloc);
    for _ in 0..channels {
        for field in Field::CHANNEL.iter() {
            add_input(&mut net, field.width())?;
        }
    }
    for field in PROBES.iter() {
        add_input(&mut net, field.width())?;
    }
    Ok(net)
}

fn add_input(net: &mut Net, width: u32) -> Result<()> {
    if width < 1 || width > 128 || net.inputs().len() > 1000 {
        bail!("no input of this width");
    }
    net.input(width, InputKind::EachCycle)?;
    Ok(())
}

/// The port of such a net.
pub(crate) fn port_of_inputs(alloc: Global, channels: u32) -> Result<Port, Memory> {
    let mut list = List::new(alloc);
    for channel in 0..channels {
        list.push(channel_from(u64::from(channel) * 19))?;
    }
    let probes = u64::from(channels) * 19;
    Ok(Port {
        channels: list,
        imem: Some((probes, probes + 1)),
        dmem: Some(probes + 2),
    })
}

/// The channel whose inputs begin with this node.
fn channel_from(first: NodeId) -> Channel
    requires { first < 2 ^ 40 }
{
    Channel {
        valid: first,
        order: first + 1,
        insn: first + 2,
        trap: first + 3,
        halt: first + 4,
        intr: first + 5,
        rs1_addr: first + 6,
        rs2_addr: first + 7,
        rs1_rdata: first + 8,
        rs2_rdata: first + 9,
        rd_addr: first + 10,
        rd_wdata: first + 11,
        pc_rdata: first + 12,
        pc_wdata: first + 13,
        mem_addr: first + 14,
        mem_rmask: first + 15,
        mem_wmask: first + 16,
        mem_rdata: first + 17,
        mem_wdata: first + 18,
    }
}

/// Whether the node is there, with this width.
fn has_node(net: &Net, width: u32, id: NodeId) -> bool
    ensures { IsTrue result → IsNodeOf net.now width id }
{
    net.has(id) && net.width(id) == width
}

/// Whether each of these nodes is there, with its width.
fn has_nodes(net: &Net, nodes: &[(u32, NodeId)]) -> bool
    ensures { IsTrue result → AreNodesWith net.now nodes.now }
{
    for node in nodes {
        if !has_node(net, node.0, node.1) {
            return false;
        }
    }
    true
}

fn has_channel(net: &Net, channel: &Channel) -> bool
    ensures { IsTrue result → AreChannelNodes net.now channel.now }
{
    let nodes = [
        (1, channel.valid),
        (64, channel.order),
        (32, channel.insn),
        (1, channel.trap),
        (1, channel.halt),
        (1, channel.intr),
        (5, channel.rs1_addr),
        (5, channel.rs2_addr),
        (32, channel.rs1_rdata),
        (32, channel.rs2_rdata),
        (5, channel.rd_addr),
        (32, channel.rd_wdata),
        (32, channel.pc_rdata),
        (32, channel.pc_wdata),
        (32, channel.mem_addr),
        (4, channel.mem_rmask),
        (4, channel.mem_wmask),
        (32, channel.mem_rdata),
        (32, channel.mem_wdata),
    ];
    has_nodes(net, &nodes)
}

fn has_imem(net: &Net, imem: Option<(NodeId, NodeId)>) -> bool
    ensures { IsTrue result → AreImemNodes net.now imem }
{
    match imem {
        Some((addr, data)) => has_node(net, 32, addr) && has_node(net, 16, data),
        None => true,
    }
}

fn has_dmem(net: &Net, dmem: Option<NodeId>) -> bool
    ensures { IsTrue result → IsDmemNode net.now dmem }
{
    match dmem {
        Some(addr) => has_node(net, 32, addr),
        None => true,
    }
}

fn has_channels(net: &Net, channels: &[Channel]) -> bool
    ensures { IsTrue result → AllByRecursion (AreChannelNodes net.now) channels.now }
{
    for channel in channels {
        if !has_channel(net, channel) {
            return false;
        }
    }
    true
}

/// Whether the nodes of the port are there, with the widths of their fields.
pub(crate) fn has_port(net: &Net, port: &Port) -> bool
    ensures { IsTrue result → ArePortNodes net.now port.now }
{
    has_channels(net, port.channels.as_slice())
        && has_imem(net, port.imem)
        && has_dmem(net, port.dmem)
}

/// Whether the port has the probe that a check of the kind asks for.
pub(crate) fn has_probe(port: &Port, kind: CheckKind) -> bool
    ensures { IsTrue result → HasProbe port.now kind }
{
    match kind {
        CheckKind::Imem => port.imem.is_some(),
        CheckKind::Dmem => port.dmem.is_some(),
        _ => true,
    }
}
