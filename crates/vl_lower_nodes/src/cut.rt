//! Indices cut to 34 bits.
#![tactic(auto, using(wn_net::proofs::Laws::additions))]

ghost use Rattle.std.specs.Prelude.{◌≡◌, IfOk, if◌then◌else◌};
ghost use Rattle.fv_bits.specs.Bits.{as_int};
ghost use Rattle.wn_net.specs.Value.{Given};
ghost use Rattle.wn_net.specs.Net.{IsNode, IsNodeOf, width_at, value_at};
ghost use Rattle.wn_net.specs.Given.{IsGiven};
ghost use Rattle.wn_net.specs.Changes.{AddsNodes};
ghost use Rattle.vl_lower_nodes.specs.Near.{IsCut};

use crate::width::fit;
use fv_text::Memory;
use wn_net::{Net, NodeId};

/// An index in 34 bits, read as signed.
#[derive(Debug, Clone, Copy, PartialEq, Eq)]
pub(crate) struct CutIndex {
    pub(crate) index: NodeId,
    /// 1 where the index is the one that was cut: else it is below `-2^32`, or `2^32` or more.
    pub(crate) near: NodeId,
}

/// How many low bits tell an index that is near.
fn bits_of(signed: bool) -> u32
    ensures { result ≡ (if signed then 33 else 32) }
{
    if signed { 33 } else { 32 }
}

pub(crate) fn cut(net: &mut Net, index: NodeId, signed: bool) -> Result<CutIndex, Memory>
    requires there { IsNode net.old index }
    ensures adds { AddsNodes net.old net.new }
    ensures index { IfOk result (λ b. IsNodeOf net.new 34 b.index) }
    ensures near { IfOk result (λ b. IsNodeOf net.new 1 b.near) }
    ensures value { IfOk result (λ b. (g : Given) → IsGiven net.old g
        → IsCut (as_int (width_at net.old index) signed (value_at net.old g index))
        (value_at net.new g b.index) (value_at net.new g b.near)) }
{
    let width = net.width(index);
    let low = fit(net, index, bits_of(signed), signed)?;
    let back = fit(net, low, width, signed)?;
    let near = net.eq(back, index)?;
    let index = fit(net, low, 34, signed)?;
    Ok(CutIndex { index, near })
}
