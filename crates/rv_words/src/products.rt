//! Upper halves of products of 64 bits. A word with its sign bit set is 2 ^ 32 less as a signed number, and the upper
//! half of its product is less by the other word.
#![tactic(auto, using(wn_net::proofs::Laws::additions, crate::proofs::ProductLemmas::products))]

ghost use Rattle.std.specs.Prelude.{◌≡◌, ◌<◌, ◌≤◌, ◌^◌, pos, ◌*ℤ◌, if◌then◌else◌, IfOk};
ghost use Rattle.fv_bits.specs.Bits.{is_negative};
ghost use Rattle.rv_table.specs.Arithmetic as arithmetic;
ghost use Rattle.wn_net.specs.Net.{IsNodeOf, value_at};
ghost use Rattle.wn_net.specs.Changes.{AddsNodes, Shows};

use crate::arithmetic::difference;
use crate::constants::word;
use fv_text::Memory;
use wn_net::{Net, NodeId};

/// The second word where the first is below 0, and else 0.
fn where_negative(net: &mut Net, a: NodeId, b: NodeId) -> Result<NodeId, Memory>
    requires left { IsNodeOf net.old 32 a }
    requires right { IsNodeOf net.old 32 b }
    ensures adds { AddsNodes net.old net.new }
    ensures shows { IfOk result (Shows net.old net.new 32
        (λ g. if is_negative 32 (value_at net.old g a) then value_at net.old g b else 0)) }
{
    let _ = net.width(a);
    let sign = net.slice(a, 31, 1)?;
    let zero = word(net, 0)?;
    let chosen = net.mux(sign, b, zero)?;
    Ok(chosen)
}

/// A word, less the second of two where the first is below 0.
fn less_where_negative(net: &mut Net, upper: NodeId, a: NodeId, b: NodeId) -> Result<NodeId, Memory>
    requires upper { IsNodeOf net.old 32 upper }
    requires left { IsNodeOf net.old 32 a }
    requires right { IsNodeOf net.old 32 b }
    ensures adds { AddsNodes net.old net.new }
    ensures shows { IfOk result (Shows net.old net.new 32
        (λ g. arithmetic.difference (value_at net.old g upper)
        (if is_negative 32 (value_at net.old g a) then value_at net.old g b else 0))) }
{
    let over = where_negative(net, a, b)?;
    let less = difference(net, upper, over)?;
    Ok(less)
}

/// The upper half of a product, both signed.
pub fn upper_product_signed(net: &mut Net, a: NodeId, b: NodeId) -> Result<NodeId, Memory>
    requires left { IsNodeOf net.old 32 a }
    requires right { IsNodeOf net.old 32 b }
    ensures adds { AddsNodes net.old net.new }
    ensures shows { IfOk result (Shows net.old net.new 32
        (λ g. arithmetic.upper_half (arithmetic.signed (value_at net.old g a)
        *ℤ arithmetic.signed (value_at net.old g b)))) }
{
    let _ = net.width(a);
    let upper = upper_product_mixed(net, a, b)?;
    let less = less_where_negative(net, upper, b, a)?;
    Ok(less)
}

/// The upper half of a product, the first signed.
pub fn upper_product_mixed(net: &mut Net, a: NodeId, b: NodeId) -> Result<NodeId, Memory>
    requires left { IsNodeOf net.old 32 a }
    requires right { IsNodeOf net.old 32 b }
    ensures adds { AddsNodes net.old net.new }
    ensures shows { IfOk result (Shows net.old net.new 32
        (λ g. arithmetic.upper_half (arithmetic.signed (value_at net.old g a)
        *ℤ pos (value_at net.old g b)))) }
{
    let _ = net.width(a);
    let upper = upper_product(net, a, b)?;
    let less = less_where_negative(net, upper, a, b)?;
    Ok(less)
}

/// The upper half of a product.
pub fn upper_product(net: &mut Net, a: NodeId, b: NodeId) -> Result<NodeId, Memory>
    requires left { IsNodeOf net.old 32 a }
    requires right { IsNodeOf net.old 32 b }
    ensures adds { AddsNodes net.old net.new }
    ensures shows { IfOk result (Shows net.old net.new 32
        (λ g. arithmetic.upper_half (pos (value_at net.old g a) *ℤ pos (value_at net.old g b)))) }
{
    let left = net.zext(a, 64)?;
    let right = net.zext(b, 64)?;
    let product = net.mul(left, right)?;
    let upper = net.slice(product, 32, 32)?;
    Ok(upper)
}
