//! Numbers, and nodes in other widths.
#![tactic(auto, using(wn_net::proofs::Laws::additions, crate::proofs::FitLemmas::tests))]

ghost use Rattle.std.specs.Prelude.{◌≡◌, ◌≤◌, ◌<◌, ◌^◌, ◌==◌, not, IfOk};
ghost use Rattle.fv_bits.specs.Bits.{bit, extended};
ghost use Rattle.fv_bits.specs.Bits as bits;
ghost use Rattle.wn_net.specs.Net.{IsNode, width_at, value_at};
ghost use Rattle.wn_net.specs.Changes.{AddsNodes, Shows};

use fv_text::{Memory, Word};
use wn_net::{Net, NodeId};

/// A number in so many bits.
pub fn number(net: &mut Net, width: u32, value: u128) -> Result<NodeId, Memory>
    requires some { 1 ≤ width }
    requires few { width ≤ 128 }
    requires fits { value < 2 ^ width }
    ensures adds { AddsNodes net.old net.new }
    ensures shows { IfOk result (Shows net.old net.new width (λ g. value)) }
{
    let high = (value >> 64) as u64;
    let low = (value % (1 << 64)) as u64;
    let id = net.konst(Word { width, high, low })?;
    Ok(id)
}

/// The node in a width, cut or extended: by its sign bit where it is signed (IEEE 1364-2005, section 5.5.2).
pub fn fit(net: &mut Net, id: NodeId, width: u32, signed: bool) -> Result<NodeId, Memory>
    requires there { IsNode net.old id }
    requires some { 1 ≤ width }
    requires few { width ≤ 128 }
    ensures adds { AddsNodes net.old net.new }
    ensures shows { IfOk result (Shows net.old net.new width
        (λ g. extended (width_at net.old id) width signed (value_at net.old g id))) }
{
    let own = net.width(id);
    if own == width {
        return Ok(id);
    }
    if width < own {
        let cut = net.slice(id, 0, width)?;
        return Ok(cut);
    }
    if signed {
        let wide = net.sext(id, width)?;
        return Ok(wide);
    }
    let wide = net.zext(id, width)?;
    Ok(wide)
}

/// 1 where the number isn't 0.
pub fn is_some(net: &mut Net, id: NodeId) -> Result<NodeId, Memory>
    requires { IsNode net.old id }
    ensures adds { AddsNodes net.old net.new }
    ensures shows { IfOk result (Shows net.old net.new 1 (λ g. bit (not (value_at net.old g id == 0)))) }
{
    let width = net.width(id);
    let zero = number(net, width, 0)?;
    let same = net.eq(id, zero)?;
    let some = net.not(same)?;
    Ok(some)
}

/// What is left to a multiple of 2 to the width.
pub fn negative(net: &mut Net, id: NodeId) -> Result<NodeId, Memory>
    requires { IsNode net.old id }
    ensures adds { AddsNodes net.old net.new }
    ensures shows { IfOk result (Shows net.old net.new (width_at net.old id)
        (λ g. bits.negative (width_at net.old id) (value_at net.old g id))) }
{
    let width = net.width(id);
    let zero = number(net, width, 0)?;
    let less = net.sub(zero, id)?;
    Ok(less)
}
