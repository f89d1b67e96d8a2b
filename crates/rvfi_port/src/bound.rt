//! The outputs of a design as the nodes of its port.
#![tactic(auto, using(wn_net::proofs::Laws::additions))]

ghost use Rattle.std.specs.Prelude.{◌≡◌, None, IfOk, OnErr, MatchResult};
ghost use Rattle.rvfi_port.specs.Channels.{IsPortOf, IsDmem, IsImem};
ghost use Rattle.rvfi_port.specs.Outputs as outputs;
ghost use Rattle.wn_net.specs.Names.{AreNamesOf};
ghost use Rattle.wn_net.specs.Changes.{AddsNodes};

use crate::channel::bind_channels;
use crate::fault::PortFault;
use crate::field::Field;
use crate::output::{output_node, outputs_of};
use crate::port::{Port, Wants};
use std::alloc::Global;
use wn_net::{Names, Net, NodeId};

/// The probe of instruction memory, where it is wanted.
fn imem_of(
    net: &Net,
    names: &Names,
    channels: u32,
    wanted: bool,
) -> Result<Option<(NodeId, NodeId)>, PortFault>
    requires { AreNamesOf net.now names.now }
    ensures probe { IfOk result (IsImem net.now net.now names.now wanted) }
    ensures refused { MatchResult result (λ p. outputs.imem_refusal names.now channels wanted ≡ None)
        (λ fault. outputs.Answered fault (outputs.imem_refusal names.now channels wanted)) }
{
    if !wanted {
        return Ok(None);
    }
    let addr = output_node(net, names, channels, Field::ImemAddr)?;
    let data = output_node(net, names, channels, Field::ImemData)?;
    Ok(Some((addr, data)))
}

/// The probe of data memory, where it is wanted.
fn dmem_of(
    net: &Net,
    names: &Names,
    channels: u32,
    wants: Wants,
) -> Result<Option<NodeId>, PortFault>
    requires { AreNamesOf net.now names.now }
    ensures probe { IfOk result (IsDmem net.now net.now names.now wants.dmem) }
    ensures refused { MatchResult result (λ p. outputs.dmem_refusal names.now channels wants ≡ None)
        (λ fault. outputs.Answered fault (outputs.dmem_refusal names.now channels wants)) }
{
    if !wants.dmem {
        return Ok(None);
    }
    let addr = output_node(net, names, channels, Field::DmemAddr)?;
    if !wants.aligned {
        return Err(PortFault::NeedsAligned);
    }
    Ok(Some(addr))
}

/// The port of a design with so many channels. Of the fields, in their order, the first that is refused is answered,
/// and behind all of them that memory isn't aligned. The net gets nodes that take the outputs apart; after a fault
/// it is as before.
pub fn bind(
    alloc: Global,
    net: &mut Net,
    names: &Names,
    channels: u32,
    wants: Wants,
) -> Result<Port, PortFault>
    requires names { AreNamesOf net.old names.now }
    ensures adds { AddsNodes net.old net.new }
    ensures bound { IfOk result (IsPortOf net.old net.new names.now channels wants) }
    ensures refused { MatchResult result (λ port. outputs.refusal names.now channels wants ≡ None)
        (λ fault. outputs.Answered fault (outputs.refusal names.now channels wants)) }
    ensures same { OnErr result (net.new ≡ net.old) }
{
    let outputs = outputs_of(alloc, net, names, channels, &Field::CHANNEL)?;
    let imem = imem_of(net, names, channels, wants.imem)?;
    let dmem = dmem_of(net, names, channels, wants)?;
    let nodes = net.nodes().len();
    let regs = net.regs().len();
    match bind_channels(alloc, net, outputs.as_slice(), channels) {
        Ok(channels) => Ok(Port {
            channels,
            imem,
            dmem,
        }),
        Err(fault) => {
            net.cut(nodes, regs);
            Err(PortFault::from(fault))
        }
    }
}
