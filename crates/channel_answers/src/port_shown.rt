//! What a port shows, and what its refusal says.

use crate::values::values_of;
use fv_text::Memory;
use rvfi_port::{Channel, Field, Port, PortFault};
use std::alloc::Global;
use wn_net::{Net, NodeId};

/// The word that a part begins with.
fn put_part(line: &mut String, word: &str) -> Result<(), Memory> {
    if !line.is_empty() {
        line.push(' ')?;
    }
    line.push_str(word)?;
    Ok(())
}

fn put_node(line: &mut String, values: &[u128], node: NodeId) -> Result<(), Memory> {
    let value = values.get(node as usize).copied().unwrap_or(u128::MAX);
    write!(line, " {value:x}")?;
    Ok(())
}

/// The nodes of a channel, in the order of the fields.
fn nodes_of(channel: &Channel) -> [NodeId; 19] {
    [
        channel.valid,
        channel.order,
        channel.insn,
        channel.trap,
        channel.halt,
        channel.intr,
        channel.rs1_addr,
        channel.rs2_addr,
        channel.rs1_rdata,
        channel.rs2_rdata,
        channel.rd_addr,
        channel.rd_wdata,
        channel.pc_rdata,
        channel.pc_wdata,
        channel.mem_addr,
        channel.mem_rmask,
        channel.mem_wmask,
        channel.mem_rdata,
        channel.mem_wdata,
    ]
}

/// The numbers of each channel and of the probes, in hexadecimal.
pub(crate) fn shown(alloc: Global, net: &Net, port: &Port) -> Result<String, Memory> {
    let values = values_of(alloc, net)?;
    let values = values.as_slice();
    let mut line = String::new(alloc);
    for channel in port.channels.as_slice() {
        put_part(&mut line, "channel")?;
        for node in nodes_of(channel) {
            put_node(&mut line, values, node)?;
        }
    }
    if let Some((addr, data)) = port.imem {
        put_part(&mut line, "imem")?;
        put_node(&mut line, values, addr)?;
        put_node(&mut line, values, data)?;
    }
    if let Some(addr) = port.dmem {
        put_part(&mut line, "dmem")?;
        put_node(&mut line, values, addr)?;
    }
    Ok(line)
}

fn name_of(field: Field) -> &'static str {
    str::from_utf8(field.name()).unwrap_or("")
}

pub(crate) fn refused(alloc: Global, fault: PortFault) -> Result<String, Memory> {
    Ok(match fault {
        PortFault::Missing(field) => format!(in alloc; "missing {}", name_of(field))?,
        PortFault::Width(field, found, wanted) => {
            format!(in alloc; "width {} {found} {wanted}", name_of(field))?
        }
        PortFault::NeedsAligned => format!(in alloc; "needs aligned")?,
        PortFault::Memory => return Err(Memory),
    })
}
