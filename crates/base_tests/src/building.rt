//! Ten nodes by three functions, each of which says what it adds and what the node that it answers shows. None has a
//! proof file: the rule set `additions` of `wn_net` carries nodes, their widths and their values over each call.
#![tactic(auto, using(wn_net::proofs::Laws::additions))]

ghost use Rattle.std.specs.Prelude.{
  ◌≡◌,
  ◌+◌,
  ◌==◌,
  nat_lt,
  bit_and,
  bit_or,
  bit_xor,
  if◌then◌else◌,
  IfOk,
};
ghost use Rattle.fv_bits.specs.Bits as bits;
ghost use Rattle.wn_net.specs.Value.{Given};
ghost use Rattle.wn_net.specs.Given.{IsGiven};
ghost use Rattle.wn_net.specs.Net.{IsNodeOf, value_at};
ghost use Rattle.wn_net.specs.Changes.{AddsNodes, Shows};

use fv_text::Memory;
use wn_net::{Net, NodeId};

/// The bits in which two words of 32 bits differ, without those of a mask: three nodes.
pub fn unmasked_difference(
    net: &mut Net,
    a: NodeId,
    b: NodeId,
    mask: NodeId,
) -> Result<NodeId, Memory>
    requires a { IsNodeOf net.old 32 a }
    requires b { IsNodeOf net.old 32 b }
    requires mask { IsNodeOf net.old 32 mask }
    ensures adds { AddsNodes net.old net.new }
    ensures shows { IfOk result (Shows net.old net.new 32 (λ g.
        bit_and (bit_xor (value_at net.old g a) (value_at net.old g b))
        (bits.complement 32 (value_at net.old g mask)))) }
{
    let differ = net.xor(a, b)?;
    let kept = net.not(mask)?;
    let found = net.and(differ, kept)?;
    Ok(found)
}

/// The larger of two words of 32 bits: two nodes.
pub fn larger(net: &mut Net, a: NodeId, b: NodeId) -> Result<NodeId, Memory>
    requires a { IsNodeOf net.old 32 a }
    requires b { IsNodeOf net.old 32 b }
    ensures adds { AddsNodes net.old net.new }
    ensures shows { IfOk result (Shows net.old net.new 32 (λ g.
        if bits.bit (nat_lt (value_at net.old g a) (value_at net.old g b)) == 1 then value_at net.old g b
        else value_at net.old g a)) }
{
    let less = net.ult(a, b)?;
    let found = net.mux(less, b, a)?;
    Ok(found)
}

/// The sum of three words, cut to 32 bits: two nodes.
pub fn sum_of_three(net: &mut Net, a: NodeId, b: NodeId, c: NodeId) -> Result<NodeId, Memory>
    requires a { IsNodeOf net.old 32 a }
    requires b { IsNodeOf net.old 32 b }
    requires c { IsNodeOf net.old 32 c }
    ensures adds { AddsNodes net.old net.new }
    ensures shows { IfOk result (Shows net.old net.new 32 (λ g.
        bits.sum 32 (bits.sum 32 (value_at net.old g a) (value_at net.old g b)) (value_at net.old g c))) }
{
    let two = net.add(a, b)?;
    let three = net.add(two, c)?;
    Ok(three)
}

/// Ten nodes by three functions, called four times.
pub fn mixed(net: &mut Net, a: NodeId, b: NodeId, mask: NodeId) -> Result<NodeId, Memory>
    requires a { IsNodeOf net.old 32 a }
    requires b { IsNodeOf net.old 32 b }
    requires mask { IsNodeOf net.old 32 mask }
    ensures adds { AddsNodes net.old net.new }
    ensures shows { IfOk result (Shows net.old net.new 32 (λ g.
        bits.sum 32 (bits.sum 32
        (bit_and (bit_xor (value_at net.old g a) (value_at net.old g b)) (bits.complement 32 (value_at net.old g mask)))
        (bit_and (bit_xor (value_at net.old g b) (value_at net.old g mask))
        (bits.complement 32 (value_at net.old g a))))
        (if bits.bit (nat_lt (value_at net.old g a) (value_at net.old g b)) == 1 then value_at net.old g b
        else value_at net.old g a))) }
{
    let one = unmasked_difference(net, a, b, mask)?;
    let other = unmasked_difference(net, b, mask, a)?;
    let most = larger(net, a, b)?;
    let sum = sum_of_three(net, one, other, most)?;
    Ok(sum)
}
