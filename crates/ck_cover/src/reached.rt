//! The node of a target.
#![tactic(auto, using(wn_net::proofs::Laws::additions, ck_history::proofs::Laws::truths))]

ghost use Rattle.std.specs.Prelude.{◌≡◌, slice_get, IfOk, OnErr};
ghost use Rattle.wn_net.specs.Changes.{AddsNodes};
ghost use Rattle.ck_history.specs.Truths.{Tells};
ghost use Rattle.rvfi_port.specs.Ports.{AreChannelNodes, ArePortNodes};
ghost use Rattle.ck_cover.specs.Goals as goals;

use crate::target::Target;
use ck_history::both;
use fv_text::Memory;
use rv_table::RowId;
use rv_words::{bit, hit};
use rvfi_port::{Channel, Port};
use wn_net::{Net, NodeId};

/// Whether the channel retires a word of the row.
fn retires_row(net: &mut Net, channel: &Channel, row: RowId) -> Result<NodeId, Memory>
    requires { AreChannelNodes net.old channel.now }
    ensures adds { AddsNodes net.old net.new }
    ensures tells { IfOk result (Tells net.old net.new (λ g. goals.retires_row net.old g channel.now row)) }
{
    let hit = hit(net, channel.insn, row)?;
    let both = both(net, channel.valid, hit)?;
    Ok(both)
}

/// The same of the channel of this number.
fn row_goal(net: &mut Net, port: &Port, index: u32, row: RowId) -> Result<NodeId, Memory>
    requires { ArePortNodes net.old port.now }
    ensures adds { AddsNodes net.old net.new }
    ensures tells { IfOk result (Tells net.old net.new
        (λ g. goals.is_retired net.old g (slice_get port.now.channels index) row)) }
{
    match port.channels.get(index as usize) {
        Some(channel) => retires_row(net, channel, row),
        None => bit(net, false),
    }
}

fn add_goal(net: &mut Net, port: &Port, target: &Target) -> Result<NodeId, Memory>
    requires { ArePortNodes net.old port.now }
    ensures adds { AddsNodes net.old net.new }
    ensures tells { IfOk result (Tells net.old net.new (λ g. goals.is_goal net.old g port.now target.now)) }
{
    match target.row {
        Some(row) => row_goal(net, port, target.channel, row),
        None => bit(net, true),
    }
}

/// 1 in every cycle where the target has no row, and else exactly where its channel retires a word of the row; in a
/// channel that the port doesn't have nothing retires. After want of memory the net is as before.
pub fn goal(net: &mut Net, port: &Port, target: &Target) -> Result<NodeId, Memory>
    requires { ArePortNodes net.old port.now }
    ensures adds { AddsNodes net.old net.new }
    ensures tells { IfOk result (Tells net.old net.new (λ g. goals.is_goal net.old g port.now target.now)) }
    ensures same { OnErr result (net.new ≡ net.old) }
{
    let nodes = net.nodes().len();
    let regs = net.regs().len();
    match add_goal(net, port, target) {
        Ok(goal) => Ok(goal),
        Err(fault) => {
            net.cut(nodes, regs);
            Err(fault)
        }
    }
}
