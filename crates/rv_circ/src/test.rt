//! Tests of nodes, in one bit.
#![tactic(auto, using(crate::proofs::TestLemmas::agreements))]

ghost use Rattle.std.specs.Prelude.{◌≡◌, ◌==◌, not, ◌&&◌, ◌||◌, ◌<◌, ◌≤◌, ◌^◌, IfOk};
ghost use Rattle.fv_bits.specs.Bits.{bit};
ghost use Rattle.rv_table.specs.Agree as agree;
ghost use Rattle.wn_net.specs.Net.{IsNodeOf, value_at};
ghost use Rattle.wn_net.specs.Changes.{AddsNodes, Shows};

use fv_text::Memory;
use rv_words::{field, is_number, isnt_number};
use wn_net::{Net, NodeId};

/// 1 where two nodes of this width are equal.
pub(crate) fn equal(net: &mut Net, width: u32, a: NodeId, b: NodeId) -> Result<NodeId, Memory>
    requires left { IsNodeOf net.old width a }
    requires right { IsNodeOf net.old width b }
    ensures adds { AddsNodes net.old net.new }
    ensures shows { IfOk result (Shows net.old net.new 1
        (λ g. bit (value_at net.old g a == value_at net.old g b))) }
{
    let test = net.eq(a, b)?;
    Ok(test)
}

/// 1 where two bits are equal.
pub(crate) fn same(net: &mut Net, a: NodeId, b: NodeId) -> Result<NodeId, Memory>
    requires left { IsNodeOf net.old 1 a }
    requires right { IsNodeOf net.old 1 b }
    ensures adds { AddsNodes net.old net.new }
    ensures shows { IfOk result (Shows net.old net.new 1
        (λ g. bit (agree.same (value_at net.old g a == 1) (value_at net.old g b == 1)))) }
{
    let _ = net.width(a);
    let test = net.eq(a, b)?;
    Ok(test)
}

/// 1 where a source isn't read, or is the given one.
fn is_wanted(net: &mut Net, wanted: NodeId, address: NodeId) -> Result<NodeId, Memory>
    requires wanted { IsNodeOf net.old 5 wanted }
    requires address { IsNodeOf net.old 5 address }
    ensures adds { AddsNodes net.old net.new }
    ensures shows { IfOk result (Shows net.old net.new 1 (λ g. bit (value_at net.old g wanted == 0
        || value_at net.old g wanted == value_at net.old g address))) }
{
    let unread = is_number(net, wanted, 5, 0)?;
    let given = equal(net, 5, wanted, address)?;
    let test = net.or(unread, given)?;
    Ok(test)
}

/// 1 where a given x0 is 0.
fn is_kept_zero(net: &mut Net, address: NodeId, value: NodeId) -> Result<NodeId, Memory>
    requires address { IsNodeOf net.old 5 address }
    requires value { IsNodeOf net.old 32 value }
    ensures adds { AddsNodes net.old net.new }
    ensures shows { IfOk result (Shows net.old net.new 1 (λ g. bit (not (value_at net.old g address == 0)
        || value_at net.old g value == 0))) }
{
    let other = isnt_number(net, address, 5, 0)?;
    let zero = is_number(net, value, 32, 0)?;
    let test = net.or(other, zero)?;
    Ok(test)
}

/// 1 where a source that is read is the given one, and a given x0 is 0.
pub(crate) fn source_agrees(
    net: &mut Net,
    wanted: NodeId,
    address: NodeId,
    value: NodeId,
) -> Result<NodeId, Memory>
    requires wanted { IsNodeOf net.old 5 wanted }
    requires address { IsNodeOf net.old 5 address }
    requires value { IsNodeOf net.old 32 value }
    ensures adds { AddsNodes net.old net.new }
    ensures shows { IfOk result (Shows net.old net.new 1 (λ g. bit (agree.source_agrees
        (value_at net.old g wanted) (value_at net.old g address) (value_at net.old g value)))) }
{
    let right = is_wanted(net, wanted, address)?;
    let kept = is_kept_zero(net, address, value)?;
    let test = net.and(right, kept)?;
    Ok(test)
}

/// 1 where the mask has the byte.
pub(crate) fn has(net: &mut Net, mask: NodeId, index: u32) -> Result<NodeId, Memory>
    requires mask { IsNodeOf net.old 4 mask }
    requires within { index < 4 }
    ensures adds { AddsNodes net.old net.new }
    ensures shows { IfOk result (Shows net.old net.new 1
        (λ g. bit (agree.has (value_at net.old g mask) index))) }
{
    let test = net.slice(mask, index, 1)?;
    Ok(test)
}

/// The byte of a word.
fn byte(net: &mut Net, index: u32, word: NodeId) -> Result<NodeId, Memory>
    requires within { index < 4 }
    requires word { IsNodeOf net.old 32 word }
    ensures adds { AddsNodes net.old net.new }
    ensures shows { IfOk result (Shows net.old net.new 8 (λ g. agree.byte index (value_at net.old g word))) }
{
    let bits = field(net, word, 8 * index + 7, 8 * index)?;
    Ok(bits)
}

/// 1 where the byte of both words is the same.
pub(crate) fn same_byte(net: &mut Net, index: u32, a: NodeId, b: NodeId) -> Result<NodeId, Memory>
    requires within { index < 4 }
    requires left { IsNodeOf net.old 32 a }
    requires right { IsNodeOf net.old 32 b }
    ensures adds { AddsNodes net.old net.new }
    ensures shows { IfOk result (Shows net.old net.new 1 (λ g. bit (agree.byte index (value_at net.old g a)
        == agree.byte index (value_at net.old g b)))) }
{
    let left = byte(net, index, a)?;
    let right = byte(net, index, b)?;
    let test = equal(net, 8, left, right)?;
    Ok(test)
}
