#![tactic(auto, using(wn_net::proofs::Laws::additions, crate::proofs::Laws::truths))]

ghost use Rattle.std.specs.Prelude.{◌≡◌, ◌==◌, ◌&&◌, ◌||◌, not, nat_lt, ◌+◌, ◌<◌, ◌^◌, IfOk};
ghost use Rattle.wn_net.specs.Net.{IsNode, IsNodeOf, value_at, width_at};
ghost use Rattle.wn_net.specs.Changes.{AddsNodes, Shows};
ghost use Rattle.ck_history.specs.Truths.{Tells, is_one};

use fv_text::{Memory, Word};
use wn_net::{Net, NodeId};

/// Whether both say yes.
pub fn both(net: &mut Net, a: NodeId, b: NodeId) -> Result<NodeId, Memory>
    requires left { IsNodeOf net.old 1 a }
    requires right { IsNodeOf net.old 1 b }
    ensures adds { AddsNodes net.old net.new }
    ensures tells { IfOk result (Tells net.old net.new (λ g. is_one net.old g a && is_one net.old g b)) }
{
    let _ = net.width(a);
    let id = net.and(a, b)?;
    Ok(id)
}

/// Whether one of them says yes, or both do.
pub fn either(net: &mut Net, a: NodeId, b: NodeId) -> Result<NodeId, Memory>
    requires left { IsNodeOf net.old 1 a }
    requires right { IsNodeOf net.old 1 b }
    ensures adds { AddsNodes net.old net.new }
    ensures tells { IfOk result (Tells net.old net.new (λ g. is_one net.old g a || is_one net.old g b)) }
{
    let _ = net.width(a);
    let id = net.or(a, b)?;
    Ok(id)
}

/// Whether it says no.
pub fn turned(net: &mut Net, a: NodeId) -> Result<NodeId, Memory>
    requires { IsNodeOf net.old 1 a }
    ensures adds { AddsNodes net.old net.new }
    ensures tells { IfOk result (Tells net.old net.new (λ g. not (is_one net.old g a))) }
{
    let _ = net.width(a);
    let id = net.not(a)?;
    Ok(id)
}

/// Whether two numbers of one width are the same.
pub fn is_same(net: &mut Net, a: NodeId, b: NodeId) -> Result<NodeId, Memory>
    requires left { IsNode net.old a }
    requires right { IsNodeOf net.old (width_at net.old a) b }
    ensures adds { AddsNodes net.old net.new }
    ensures tells { IfOk result (Tells net.old net.new (λ g. value_at net.old g a == value_at net.old g b)) }
{
    let id = net.eq(a, b)?;
    Ok(id)
}

/// Whether the first of two numbers of one width is less.
pub(crate) fn is_below(net: &mut Net, a: NodeId, b: NodeId) -> Result<NodeId, Memory>
    requires left { IsNode net.old a }
    requires right { IsNodeOf net.old (width_at net.old a) b }
    ensures adds { AddsNodes net.old net.new }
    ensures tells { IfOk result (Tells net.old net.new
        (λ g. nat_lt (value_at net.old g a) (value_at net.old g b))) }
{
    let id = net.ult(a, b)?;
    Ok(id)
}

/// Whether it is this number.
pub fn is_number(net: &mut Net, a: NodeId, number: u128) -> Result<NodeId, Memory>
    requires there { IsNode net.old a }
    requires fits { number < 2 ^ width_at net.old a }
    ensures adds { AddsNodes net.old net.new }
    ensures tells { IfOk result (Tells net.old net.new (λ g. value_at net.old g a == number)) }
{
    let Some(word) = Word::new(net.width(a), number) else {
        return Ok(a);
    };
    let number = net.konst(word)?;
    let id = net.eq(a, number)?;
    Ok(id)
}

/// The number behind an order, in 65 bits, so that the last order has one too.
fn successor(net: &mut Net, order: NodeId) -> Result<NodeId, Memory>
    requires { IsNodeOf net.old 64 order }
    ensures adds { AddsNodes net.old net.new }
    ensures shows { IfOk result (Shows net.old net.new 65 (λ g. value_at net.old g order + 1)) }
{
    let _ = net.width(order);
    let wide = net.zext(order, 65)?;
    let Some(one) = Word::new(65, 1) else {
        return Ok(wide);
    };
    let one = net.konst(one)?;
    let id = net.add(wide, one)?;
    Ok(id)
}

/// Whether the second order is the one behind the first: orders are whole numbers of 64 bits, which don't wrap.
pub(crate) fn is_next(net: &mut Net, order: NodeId, other: NodeId) -> Result<NodeId, Memory>
    requires order { IsNodeOf net.old 64 order }
    requires other { IsNodeOf net.old 64 other }
    ensures adds { AddsNodes net.old net.new }
    ensures tells { IfOk result (Tells net.old net.new
        (λ g. value_at net.old g other == value_at net.old g order + 1)) }
{
    let next = successor(net, order)?;
    let wide = net.zext(other, 65)?;
    let id = net.eq(wide, next)?;
    Ok(id)
}
