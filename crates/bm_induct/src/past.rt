//! Registers that tell of the cycles before.
#![tactic(auto, using(wn_net::proofs::Laws::additions))]

ghost use Rattle.std.specs.Prelude.{◌-◌, ◌<◌, ◌^◌, length, IfOk};
ghost use Rattle.wn_net.specs.Net.{IsNodeOf};
ghost use Rattle.bm_induct.specs.Past.{AddsPast, in_all, in_some};

use ck_history::{both, either};
use fv_text::Memory;
use wn_net::{Init, Net, NodeId};

/// Two nodes of one bit that tell whether something holds in cycles of a run.
#[derive(Debug, Clone, Copy, PartialEq, Eq)]
pub(crate) struct Past {
    /// In the cycles before this one.
    pub(crate) before: NodeId,
    /// In this one too.
    pub(crate) now: NodeId,
}

/// Whether the node says yes in all cycles.
pub(crate) fn always(net: &mut Net, holds: NodeId) -> Result<Past, Memory>
    requires holds { IsNodeOf net.old 1 holds }
    requires room { length net.old.regs < 2 ^ 32 - 1 }
    ensures { IfOk result (AddsPast in_all net.old net.new holds) }
{
    let reg = net.regs().len() as u32;
    let before = net.reg(1, Init::Known(1))?;
    let now = both(net, before, holds)?;
    net.set_next(reg, now);
    let _ = net.regs();
    Ok(Past { before, now })
}

/// Whether it says yes in some cycle.
pub(crate) fn ever(net: &mut Net, holds: NodeId) -> Result<Past, Memory>
    requires holds { IsNodeOf net.old 1 holds }
    requires room { length net.old.regs < 2 ^ 32 - 1 }
    ensures { IfOk result (AddsPast in_some net.old net.new holds) }
{
    let reg = net.regs().len() as u32;
    let before = net.reg(1, Init::Known(0))?;
    let now = either(net, before, holds)?;
    net.set_next(reg, now);
    let _ = net.regs();
    Ok(Past { before, now })
}
