//! Division of signed words, by their magnitudes.
#![tactic(auto, using(wn_net::proofs::Laws::additions))]

ghost use Rattle.std.specs.Prelude.{
  ◌≡◌,
  ◌==◌,
  if◌then◌else◌,
  ◌+◌,
  ◌≤◌,
  bit_xor,
  unsigned_abs,
  IfOk,
};
ghost use Rattle.fv_bits.specs.Bits as bits;
ghost use Rattle.rv_table.specs.Arithmetic as arithmetic;
ghost use Rattle.wn_net.specs.Net.{IsNodeOf, value_at};
ghost use Rattle.wn_net.specs.Changes.{AddsNodes, Shows};
ghost use Rattle.rv_rows.specs.Signed.{rounded_quotient};

use crate::division::{quotient, remainder};
use fv_text::Memory;
use rv_words::{difference, is_number, word};
use wn_net::{Net, NodeId};

/// 1 where the word is below 0.
fn is_negative(net: &mut Net, a: NodeId) -> Result<NodeId, Memory>
    requires { IsNodeOf net.old 32 a }
    ensures adds { AddsNodes net.old net.new }
    ensures shows { IfOk result (Shows net.old net.new 1
        (λ g. bits.bit (bits.is_negative 32 (value_at net.old g a)))) }
{
    let _ = net.width(a);
    let sign = net.slice(a, 31, 1)?;
    Ok(sign)
}

/// 0 minus the word where the bit is set, and else the word.
fn negated_where(net: &mut Net, set: NodeId, a: NodeId) -> Result<NodeId, Memory>
    requires set { IsNodeOf net.old 1 set }
    requires word { IsNodeOf net.old 32 a }
    ensures adds { AddsNodes net.old net.new }
    ensures shows { IfOk result (Shows net.old net.new 32 (λ g. if value_at net.old g set == 1
        then arithmetic.difference 0 (value_at net.old g a) else value_at net.old g a)) }
{
    let zero = word(net, 0)?;
    let negated = difference(net, zero, a)?;
    let chosen = net.mux(set, negated, a)?;
    Ok(chosen)
}

/// How far a signed word is from 0.
fn magnitude(net: &mut Net, a: NodeId) -> Result<NodeId, Memory>
    requires { IsNodeOf net.old 32 a }
    ensures adds { AddsNodes net.old net.new }
    ensures shows { IfOk result (Shows net.old net.new 32
        (λ g. unsigned_abs (arithmetic.signed (value_at net.old g a)))) }
{
    let _ = net.width(a);
    let negative = is_negative(net, a)?;
    let word = negated_where(net, negative, a)?;
    Ok(word)
}

/// The quotient of the magnitudes.
fn magnitudes_quotient(net: &mut Net, a: NodeId, b: NodeId) -> Result<NodeId, Memory>
    requires left { IsNodeOf net.old 32 a }
    requires right { IsNodeOf net.old 32 b }
    ensures adds { AddsNodes net.old net.new }
    ensures shows { IfOk result (Shows net.old net.new 32
        (λ g. arithmetic.quotient (unsigned_abs (arithmetic.signed (value_at net.old g a)))
        (unsigned_abs (arithmetic.signed (value_at net.old g b))))) }
{
    let left = magnitude(net, a)?;
    let right = magnitude(net, b)?;
    let word = quotient(net, left, right)?;
    Ok(word)
}

/// What the division of the magnitudes leaves.
fn magnitudes_remainder(net: &mut Net, a: NodeId, b: NodeId) -> Result<NodeId, Memory>
    requires left { IsNodeOf net.old 32 a }
    requires right { IsNodeOf net.old 32 b }
    ensures adds { AddsNodes net.old net.new }
    ensures shows { IfOk result (Shows net.old net.new 32
        (λ g. arithmetic.remainder (unsigned_abs (arithmetic.signed (value_at net.old g a)))
        (unsigned_abs (arithmetic.signed (value_at net.old g b))))) }
{
    let left = magnitude(net, a)?;
    let right = magnitude(net, b)?;
    let word = remainder(net, left, right)?;
    Ok(word)
}

/// 1 where exactly one of the words is below 0.
fn signs_differ(net: &mut Net, a: NodeId, b: NodeId) -> Result<NodeId, Memory>
    requires left { IsNodeOf net.old 32 a }
    requires right { IsNodeOf net.old 32 b }
    ensures adds { AddsNodes net.old net.new }
    ensures shows { IfOk result (Shows net.old net.new 1
        (λ g. bit_xor (bits.bit (bits.is_negative 32 (value_at net.old g a)))
        (bits.bit (bits.is_negative 32 (value_at net.old g b))))) }
{
    let left = is_negative(net, a)?;
    let right = is_negative(net, b)?;
    let test = net.xor(left, right)?;
    Ok(test)
}

/// The quotient of two signed words where the divisor isn't 0.
fn rounded_quotient(net: &mut Net, a: NodeId, b: NodeId) -> Result<NodeId, Memory>
    requires left { IsNodeOf net.old 32 a }
    requires right { IsNodeOf net.old 32 b }
    ensures adds { AddsNodes net.old net.new }
    ensures shows { IfOk result (Shows net.old net.new 32
        (λ g. rounded_quotient (value_at net.old g a) (value_at net.old g b))) }
{
    let differ = signs_differ(net, a, b)?;
    let magnitude = magnitudes_quotient(net, a, b)?;
    let word = negated_where(net, differ, magnitude)?;
    Ok(word)
}

/// The quotient of two signed words, rounded to 0: all ones where the divisor is 0.
pub(crate) fn quotient_signed(net: &mut Net, a: NodeId, b: NodeId) -> Result<NodeId, Memory>
    requires left { IsNodeOf net.old 32 a }
    requires right { IsNodeOf net.old 32 b }
    ensures adds { AddsNodes net.old net.new }
    ensures shows { IfOk result (Shows net.old net.new 32
        (λ g. arithmetic.quotient_signed (value_at net.old g a) (value_at net.old g b))) }
{
    let _ = net.width(a);
    let rounded = rounded_quotient(net, a, b)?;
    let ones = word(net, u32::MAX)?;
    let is_zero = is_number(net, b, 32, 0)?;
    let chosen = net.mux(is_zero, ones, rounded)?;
    Ok(chosen)
}

/// What is left of the division of two signed words, with the dividend's sign: the dividend where the divisor is 0.
pub(crate) fn remainder_signed(net: &mut Net, a: NodeId, b: NodeId) -> Result<NodeId, Memory>
    requires left { IsNodeOf net.old 32 a }
    requires right { IsNodeOf net.old 32 b }
    ensures adds { AddsNodes net.old net.new }
    ensures shows { IfOk result (Shows net.old net.new 32
        (λ g. arithmetic.remainder_signed (value_at net.old g a) (value_at net.old g b))) }
{
    let _ = net.width(a);
    let below = is_negative(net, a)?;
    let magnitude = magnitudes_remainder(net, a, b)?;
    let word = negated_where(net, below, magnitude)?;
    Ok(word)
}
