//! A net without the nodes that only the last cycle looks at.
ghost use Rattle.std.specs.Prelude.{IfOk};
ghost use Rattle.wn_net.specs.Changes.{AddsNodes};

use crate::named::{last_of_mems, last_of_nodes, last_of_regs};
use fv_text::Memory;
use wn_net::Net;

/// The net with the nodes alone up to the last one that a register, a write or an assumption names: what a cycle hands
/// on to the next one doesn't look at those behind.
pub fn early(net: &Net) -> Result<Net, Memory>
    ensures { IfOk result (λ part. AddsNodes part net.now) }
{
    let last = last_of_regs(net.regs(), 0);
    let last = last_of_mems(net.mems(), last);
    let last = last_of_nodes(net.assumes(), last);
    let mut part = net.copy()?;
    if last < part.nodes().len() {
        let regs = part.regs().len();
        part.cut(last + 1, regs);
    }
    Ok(part)
}
