//! A net that is built anew.
ghost use Rattle.std.specs.Prelude.{◌≡◌, ◌<◌, ◌^◌, length, IfOk};
ghost use Rattle.wn_net.specs.Net.{IsNet};
ghost use Rattle.bm_induct.specs.Rebuilt.{IsRebuilt, offset};

use crate::begin::{put_inputs, put_mems, put_regs};
use crate::behind::{put_assumes, put_mem_writes, put_nexts, put_nodes};
use crate::how::Rebuild;
use fv_text::Memory;
use std::alloc::Global;
use wn_net::Net;

/// How much higher the numbers of a net's nodes are in one that is built anew.
pub fn offset_of(net: &Net) -> u64
    ensures value { result ≡ offset net.now }
    ensures few { result < 2 ^ 33 }
{
    net.inputs().len() as u64 + net.regs().len() as u64
}

/// The net once more, changed as is told: what was a node is the node whose number is higher by `offset_of`. No memory
/// holds 2 ^ 62 nodes.
pub fn rebuilt(alloc: Global, net: &Net, how: Rebuild) -> Result<Net, Memory>
    ensures anew { IfOk result (IsRebuilt how net.now) }
    // The number of a node fits when it is higher.
    ensures few { IfOk result (λ made. length net.now.nodes < 2 ^ 62) }
{
    let nodes = net.nodes();
    // So many nodes take more than all memory.
    if nodes.len() >= 1 << 62 {
        return Err(Memory);
    }
    let more = offset_of(net);
    let mut made = Net::new(alloc);
    put_inputs(&mut made, net)?;
    put_regs(&mut made, net, how)?;
    put_mems(alloc, &mut made, net, how)?;
    put_nodes(&mut made, net, how, more)?;
    put_nexts(&mut made, net, how, more);
    put_mem_writes(&mut made, net, how, more)?;
    match how {
        Rebuild::Waived => Ok(made),
        Rebuild::Freed => {
            put_assumes(&mut made, net, how, more)?;
            Ok(made)
        }
    }
}
