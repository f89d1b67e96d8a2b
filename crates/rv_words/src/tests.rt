//! One-bit nodes and choices between nodes.
#![tactic(auto, using(wn_net::proofs::Laws::additions, crate::proofs::BitLemmas::tests))]

ghost use Rattle.std.specs.Prelude.{
  ◌≡◌,
  ◌==◌,
  not,
  nat_lt,
  if◌then◌else◌,
  ◌<◌,
  ◌≤◌,
  ◌^◌,
  IfOk,
};
ghost use Rattle.fv_bits.specs.Bits.{bit};
ghost use Rattle.rv_table.specs.Arithmetic as arithmetic;
ghost use Rattle.rv_table.specs.Effect as effect;
ghost use Rattle.wn_net.specs.Net.{IsNodeOf, value_at};
ghost use Rattle.wn_net.specs.Changes.{AddsNodes, Shows};

use crate::constants::{constant, word};
use fv_text::Memory;
use rv_table::BranchRow;
use wn_net::{Net, NodeId};

/// 1 where both words are equal.
pub fn equal(net: &mut Net, a: NodeId, b: NodeId) -> Result<NodeId, Memory>
    requires left { IsNodeOf net.old 32 a }
    requires right { IsNodeOf net.old 32 b }
    ensures adds { AddsNodes net.old net.new }
    ensures shows { IfOk result (Shows net.old net.new 1
        (λ g. bit (value_at net.old g a == value_at net.old g b))) }
{
    let test = net.eq(a, b)?;
    Ok(test)
}

/// 1 where the words differ.
fn different(net: &mut Net, a: NodeId, b: NodeId) -> Result<NodeId, Memory>
    requires left { IsNodeOf net.old 32 a }
    requires right { IsNodeOf net.old 32 b }
    ensures adds { AddsNodes net.old net.new }
    ensures shows { IfOk result (Shows net.old net.new 1
        (λ g. bit (not (value_at net.old g a == value_at net.old g b)))) }
{
    let same = net.eq(a, b)?;
    let test = net.not(same)?;
    Ok(test)
}

/// 1 where the first word is less.
pub fn less(net: &mut Net, a: NodeId, b: NodeId) -> Result<NodeId, Memory>
    requires left { IsNodeOf net.old 32 a }
    requires right { IsNodeOf net.old 32 b }
    ensures adds { AddsNodes net.old net.new }
    ensures shows { IfOk result (Shows net.old net.new 1
        (λ g. bit (nat_lt (value_at net.old g a) (value_at net.old g b)))) }
{
    let test = net.ult(a, b)?;
    Ok(test)
}

/// 1 where the first word isn't less.
fn not_less(net: &mut Net, a: NodeId, b: NodeId) -> Result<NodeId, Memory>
    requires left { IsNodeOf net.old 32 a }
    requires right { IsNodeOf net.old 32 b }
    ensures adds { AddsNodes net.old net.new }
    ensures shows { IfOk result (Shows net.old net.new 1
        (λ g. bit (not (nat_lt (value_at net.old g a) (value_at net.old g b))))) }
{
    let less = net.ult(a, b)?;
    let test = net.not(less)?;
    Ok(test)
}

/// 1 where the first word is less, both signed.
pub(crate) fn less_signed(net: &mut Net, a: NodeId, b: NodeId) -> Result<NodeId, Memory>
    requires left { IsNodeOf net.old 32 a }
    requires right { IsNodeOf net.old 32 b }
    ensures adds { AddsNodes net.old net.new }
    ensures shows { IfOk result (Shows net.old net.new 1
        (λ g. bit (arithmetic.is_less_signed (value_at net.old g a) (value_at net.old g b)))) }
{
    let test = net.slt(a, b)?;
    Ok(test)
}

/// 1 where the first word isn't less, both signed.
fn not_less_signed(net: &mut Net, a: NodeId, b: NodeId) -> Result<NodeId, Memory>
    requires left { IsNodeOf net.old 32 a }
    requires right { IsNodeOf net.old 32 b }
    ensures adds { AddsNodes net.old net.new }
    ensures shows { IfOk result (Shows net.old net.new 1
        (λ g. bit (not (arithmetic.is_less_signed (value_at net.old g a) (value_at net.old g b))))) }
{
    let less = net.slt(a, b)?;
    let test = net.not(less)?;
    Ok(test)
}

/// 1 where a branch of the row is taken.
pub fn is_taken(net: &mut Net, row: BranchRow, a: NodeId, b: NodeId) -> Result<NodeId, Memory>
    requires left { IsNodeOf net.old 32 a }
    requires right { IsNodeOf net.old 32 b }
    ensures adds { AddsNodes net.old net.new }
    ensures shows { IfOk result (Shows net.old net.new 1
        (λ g. bit (effect.is_taken row (value_at net.old g a) (value_at net.old g b)))) }
{
    match row {
        BranchRow::Beq => equal(net, a, b),
        BranchRow::Bne => different(net, a, b),
        BranchRow::Blt => less_signed(net, a, b),
        BranchRow::Bge => not_less_signed(net, a, b),
        BranchRow::Bltu => less(net, a, b),
        BranchRow::Bgeu => not_less(net, a, b),
    }
}

/// 1 where a node of this width is the number.
pub fn is_number(net: &mut Net, node: NodeId, width: u32, number: u32) -> Result<NodeId, Memory>
    requires node { IsNodeOf net.old width node }
    requires some { 1 ≤ width }
    requires few { width ≤ 64 }
    requires within { number < 2 ^ width }
    ensures adds { AddsNodes net.old net.new }
    ensures shows { IfOk result (Shows net.old net.new 1
        (λ g. bit (value_at net.old g node == number))) }
{
    let number = constant(net, width, number)?;
    let test = net.eq(node, number)?;
    Ok(test)
}

/// 1 where a node of this width is another number.
pub fn isnt_number(net: &mut Net, node: NodeId, width: u32, number: u32) -> Result<NodeId, Memory>
    requires node { IsNodeOf net.old width node }
    requires some { 1 ≤ width }
    requires few { width ≤ 64 }
    requires within { number < 2 ^ width }
    ensures adds { AddsNodes net.old net.new }
    ensures shows { IfOk result (Shows net.old net.new 1
        (λ g. bit (not (value_at net.old g node == number)))) }
{
    let same = is_number(net, node, width, number)?;
    let test = net.not(same)?;
    Ok(test)
}

/// A word that is 1 where the bit is set, and else 0.
pub fn truth(net: &mut Net, test: NodeId) -> Result<NodeId, Memory>
    requires { IsNodeOf net.old 1 test }
    ensures adds { AddsNodes net.old net.new }
    ensures shows { IfOk result (Shows net.old net.new 32 (λ g. value_at net.old g test)) }
{
    let word = net.zext(test, 32)?;
    Ok(word)
}

/// x0 is 0, whatever stands beside it.
pub fn unless_x0(net: &mut Net, address: NodeId, value: NodeId) -> Result<NodeId, Memory>
    requires address { IsNodeOf net.old 5 address }
    requires value { IsNodeOf net.old 32 value }
    ensures adds { AddsNodes net.old net.new }
    ensures shows { IfOk result (Shows net.old net.new 32
        (λ g. effect.unless_x0 (value_at net.old g address) (value_at net.old g value))) }
{
    let is_x0 = is_number(net, address, 5, 0)?;
    let zero = word(net, 0)?;
    let chosen = net.mux(is_x0, zero, value)?;
    Ok(chosen)
}
