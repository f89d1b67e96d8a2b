//! Computation on words.
#![tactic(auto, using(wn_net::proofs::Laws::additions, crate::proofs::WordLemmas::numbers))]

ghost use Rattle.std.specs.Prelude.{
  ◌≡◌,
  ◌-◌,
  ◌%◌,
  ◌<◌,
  ◌≤◌,
  ◌^◌,
  nat_lt,
  bit_and,
  bit_or,
  bit_xor,
  IfOk,
};
ghost use Rattle.fv_bits.specs.Bits.{bit};
ghost use Rattle.rv_table.specs.Arithmetic as arithmetic;
ghost use Rattle.rv_table.specs.Effect as effect;
ghost use Rattle.wn_net.specs.Net.{IsNodeOf, value_at};
ghost use Rattle.wn_net.specs.Changes.{AddsNodes, Shows};

use crate::constants::word;
use crate::fields::{field, raised};
use crate::tests::{less, less_signed, truth};
use fv_text::Memory;
use rv_table::{ImmediateRow, RegisterRow};
use wn_net::{Net, NodeId};

/// The low 32 bits of a sum.
pub fn sum(net: &mut Net, a: NodeId, b: NodeId) -> Result<NodeId, Memory>
    requires left { IsNodeOf net.old 32 a }
    requires right { IsNodeOf net.old 32 b }
    ensures adds { AddsNodes net.old net.new }
    ensures shows { IfOk result (Shows net.old net.new 32
        (λ g. arithmetic.sum (value_at net.old g a) (value_at net.old g b))) }
{
    let sum = net.add(a, b)?;
    Ok(sum)
}

/// The low 32 bits of the sum with a number.
pub fn plus(net: &mut Net, a: NodeId, number: u32) -> Result<NodeId, Memory>
    requires { IsNodeOf net.old 32 a }
    ensures adds { AddsNodes net.old net.new }
    ensures shows { IfOk result (Shows net.old net.new 32
        (λ g. arithmetic.sum (value_at net.old g a) number)) }
{
    let number = word(net, number)?;
    let sum = sum(net, a, number)?;
    Ok(sum)
}

/// The low 32 bits of a difference.
pub fn difference(net: &mut Net, a: NodeId, b: NodeId) -> Result<NodeId, Memory>
    requires left { IsNodeOf net.old 32 a }
    requires right { IsNodeOf net.old 32 b }
    ensures adds { AddsNodes net.old net.new }
    ensures shows { IfOk result (Shows net.old net.new 32
        (λ g. arithmetic.difference (value_at net.old g a) (value_at net.old g b))) }
{
    let difference = net.sub(a, b)?;
    Ok(difference)
}

/// The low 32 bits of a product.
pub fn product(net: &mut Net, a: NodeId, b: NodeId) -> Result<NodeId, Memory>
    requires left { IsNodeOf net.old 32 a }
    requires right { IsNodeOf net.old 32 b }
    ensures adds { AddsNodes net.old net.new }
    ensures shows { IfOk result (Shows net.old net.new 32
        (λ g. arithmetic.product (value_at net.old g a) (value_at net.old g b))) }
{
    let product = net.mul(a, b)?;
    Ok(product)
}

fn both(net: &mut Net, a: NodeId, b: NodeId) -> Result<NodeId, Memory>
    requires left { IsNodeOf net.old 32 a }
    requires right { IsNodeOf net.old 32 b }
    ensures adds { AddsNodes net.old net.new }
    ensures shows { IfOk result (Shows net.old net.new 32
        (λ g. bit_and (value_at net.old g a) (value_at net.old g b))) }
{
    let word = net.and(a, b)?;
    Ok(word)
}

fn either(net: &mut Net, a: NodeId, b: NodeId) -> Result<NodeId, Memory>
    requires left { IsNodeOf net.old 32 a }
    requires right { IsNodeOf net.old 32 b }
    ensures adds { AddsNodes net.old net.new }
    ensures shows { IfOk result (Shows net.old net.new 32
        (λ g. bit_or (value_at net.old g a) (value_at net.old g b))) }
{
    let word = net.or(a, b)?;
    Ok(word)
}

/// Each bit of exactly one.
pub fn exactly_one(net: &mut Net, a: NodeId, b: NodeId) -> Result<NodeId, Memory>
    requires left { IsNodeOf net.old 32 a }
    requires right { IsNodeOf net.old 32 b }
    ensures adds { AddsNodes net.old net.new }
    ensures shows { IfOk result (Shows net.old net.new 32
        (λ g. bit_xor (value_at net.old g a) (value_at net.old g b))) }
{
    let word = net.xor(a, b)?;
    Ok(word)
}

fn truth_of_less(net: &mut Net, a: NodeId, b: NodeId) -> Result<NodeId, Memory>
    requires left { IsNodeOf net.old 32 a }
    requires right { IsNodeOf net.old 32 b }
    ensures adds { AddsNodes net.old net.new }
    ensures shows { IfOk result (Shows net.old net.new 32
        (λ g. bit (nat_lt (value_at net.old g a) (value_at net.old g b)))) }
{
    let test = less(net, a, b)?;
    let word = truth(net, test)?;
    Ok(word)
}

fn truth_of_less_signed(net: &mut Net, a: NodeId, b: NodeId) -> Result<NodeId, Memory>
    requires left { IsNodeOf net.old 32 a }
    requires right { IsNodeOf net.old 32 b }
    ensures adds { AddsNodes net.old net.new }
    ensures shows { IfOk result (Shows net.old net.new 32
        (λ g. bit (arithmetic.is_less_signed (value_at net.old g a) (value_at net.old g b)))) }
{
    let test = less_signed(net, a, b)?;
    let word = truth(net, test)?;
    Ok(word)
}

/// The low five bits of a word, by which a shift moves.
fn amount(net: &mut Net, b: NodeId) -> Result<NodeId, Memory>
    requires { IsNodeOf net.old 32 b }
    ensures adds { AddsNodes net.old net.new }
    ensures shows { IfOk result (Shows net.old net.new 5
        (λ g. arithmetic.amount (value_at net.old g b))) }
{
    let amount = net.slice(b, 0, 5)?;
    Ok(amount)
}

/// Zeros come in from the right.
fn shifted_left(net: &mut Net, a: NodeId, b: NodeId) -> Result<NodeId, Memory>
    requires left { IsNodeOf net.old 32 a }
    requires right { IsNodeOf net.old 32 b }
    ensures adds { AddsNodes net.old net.new }
    ensures shows { IfOk result (Shows net.old net.new 32
        (λ g. arithmetic.shifted_left (value_at net.old g a) (value_at net.old g b))) }
{
    let by = amount(net, b)?;
    let word = net.shl(a, by)?;
    Ok(word)
}

/// Zeros come in from the left.
fn shifted_right(net: &mut Net, a: NodeId, b: NodeId) -> Result<NodeId, Memory>
    requires left { IsNodeOf net.old 32 a }
    requires right { IsNodeOf net.old 32 b }
    ensures adds { AddsNodes net.old net.new }
    ensures shows { IfOk result (Shows net.old net.new 32
        (λ g. arithmetic.shifted_right (value_at net.old g a) (value_at net.old g b))) }
{
    let by = amount(net, b)?;
    let word = net.lshr(a, by)?;
    Ok(word)
}

/// Copies of the sign come in from the left.
fn shifted_right_signed(net: &mut Net, a: NodeId, b: NodeId) -> Result<NodeId, Memory>
    requires left { IsNodeOf net.old 32 a }
    requires right { IsNodeOf net.old 32 b }
    ensures adds { AddsNodes net.old net.new }
    ensures shows { IfOk result (Shows net.old net.new 32
        (λ g. arithmetic.shifted_right_signed (value_at net.old g a) (value_at net.old g b))) }
{
    let by = amount(net, b)?;
    let word = net.ashr(a, by)?;
    Ok(word)
}

/// What an instruction of the row computes of its source and its immediate.
pub fn immediate_result(
    net: &mut Net,
    row: ImmediateRow,
    a: NodeId,
    b: NodeId,
) -> Result<NodeId, Memory>
    requires left { IsNodeOf net.old 32 a }
    requires right { IsNodeOf net.old 32 b }
    ensures adds { AddsNodes net.old net.new }
    ensures shows { IfOk result (Shows net.old net.new 32
        (λ g. effect.immediate_result row (value_at net.old g a) (value_at net.old g b))) }
{
    match row {
        ImmediateRow::Addi => sum(net, a, b),
        ImmediateRow::Slti => truth_of_less_signed(net, a, b),
        ImmediateRow::Sltiu => truth_of_less(net, a, b),
        ImmediateRow::Xori => exactly_one(net, a, b),
        ImmediateRow::Ori => either(net, a, b),
        ImmediateRow::Andi => both(net, a, b),
        ImmediateRow::Slli => shifted_left(net, a, b),
        ImmediateRow::Srli => shifted_right(net, a, b),
        ImmediateRow::Srai => shifted_right_signed(net, a, b),
    }
}

/// What an instruction of the row computes of its two sources.
pub fn register_result(
    net: &mut Net,
    row: RegisterRow,
    a: NodeId,
    b: NodeId,
) -> Result<NodeId, Memory>
    requires left { IsNodeOf net.old 32 a }
    requires right { IsNodeOf net.old 32 b }
    ensures adds { AddsNodes net.old net.new }
    ensures shows { IfOk result (Shows net.old net.new 32
        (λ g. effect.register_result row (value_at net.old g a) (value_at net.old g b))) }
{
    match row {
        RegisterRow::Add => sum(net, a, b),
        RegisterRow::Sub => difference(net, a, b),
        RegisterRow::Sll => shifted_left(net, a, b),
        RegisterRow::Slt => truth_of_less_signed(net, a, b),
        RegisterRow::Sltu => truth_of_less(net, a, b),
        RegisterRow::Xor => exactly_one(net, a, b),
        RegisterRow::Srl => shifted_right(net, a, b),
        RegisterRow::Sra => shifted_right_signed(net, a, b),
        RegisterRow::Or => either(net, a, b),
        RegisterRow::And => both(net, a, b),
    }
}

/// The word with its lowest bit cleared.
pub fn even(net: &mut Net, a: NodeId) -> Result<NodeId, Memory>
    requires { IsNodeOf net.old 32 a }
    ensures adds { AddsNodes net.old net.new }
    ensures shows { IfOk result (Shows net.old net.new 32
        (λ g. value_at net.old g a - value_at net.old g a % 2)) }
{
    let _ = net.width(a);
    let upper = field(net, a, 31, 1)?;
    let word = raised(net, upper, 31, 1)?;
    Ok(word)
}
