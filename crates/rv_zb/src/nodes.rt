//! What rd gets, as nodes of a net.
#![tactic(auto, using(wn_net::proofs::Laws::additions))]

ghost use Rattle.std.specs.Prelude.{◌≡◌, ◌<◌, ◌≤◌, ◌^◌, IfOk};
ghost use Rattle.rv_zb.specs.Effect as effect;
ghost use Rattle.rv_zb.specs.declared.row.BitRow.TheVariants as bits;
ghost use Rattle.rv_zb.specs.declared.row.ZbRow.TheVariants as zb;
ghost use Rattle.wn_net.specs.Net.{IsNodeOf, value_at};
ghost use Rattle.wn_net.specs.Changes.{AddsNodes, Shows};

use crate::row::{BitRow, ShiftAddRow, ZbRow};
use fv_text::Memory;
use rv_words::{constant, field, sum, truth, word};
use wn_net::{Net, NodeId};

/// The word that has this bit alone.
fn bit_alone(net: &mut Net, index: NodeId) -> Result<NodeId, Memory>
    requires { IsNodeOf net.old 5 index }
    ensures adds { AddsNodes net.old net.new }
    ensures shows { IfOk result (Shows net.old net.new 32 (λ g. 2 ^ value_at net.old g index)) }
{
    let _ = net.width(index);
    let one = word(net, 1)?;
    let alone = net.shl(one, index)?;
    Ok(alone)
}

fn cleared(net: &mut Net, word: NodeId, index: NodeId) -> Result<NodeId, Memory>
    requires word { IsNodeOf net.old 32 word }
    requires index { IsNodeOf net.old 5 index }
    ensures adds { AddsNodes net.old net.new }
    ensures shows { IfOk result (Shows net.old net.new 32
        (λ g. effect.bit_result bits.Clear (value_at net.old g word) (value_at net.old g index))) }
{
    let alone = bit_alone(net, index)?;
    let others = net.not(alone)?;
    let cleared = net.and(word, others)?;
    Ok(cleared)
}

fn extracted(net: &mut Net, word: NodeId, index: NodeId) -> Result<NodeId, Memory>
    requires word { IsNodeOf net.old 32 word }
    requires index { IsNodeOf net.old 5 index }
    ensures adds { AddsNodes net.old net.new }
    ensures shows { IfOk result (Shows net.old net.new 32
        (λ g. effect.bit_result bits.Extract (value_at net.old g word) (value_at net.old g index))) }
{
    let moved = net.lshr(word, index)?;
    let lowest = net.slice(moved, 0, 1)?;
    let extracted = truth(net, lowest)?;
    Ok(extracted)
}

fn inverted(net: &mut Net, word: NodeId, index: NodeId) -> Result<NodeId, Memory>
    requires word { IsNodeOf net.old 32 word }
    requires index { IsNodeOf net.old 5 index }
    ensures adds { AddsNodes net.old net.new }
    ensures shows { IfOk result (Shows net.old net.new 32
        (λ g. effect.bit_result bits.Invert (value_at net.old g word) (value_at net.old g index))) }
{
    let alone = bit_alone(net, index)?;
    let inverted = net.xor(word, alone)?;
    Ok(inverted)
}

fn set(net: &mut Net, word: NodeId, index: NodeId) -> Result<NodeId, Memory>
    requires word { IsNodeOf net.old 32 word }
    requires index { IsNodeOf net.old 5 index }
    ensures adds { AddsNodes net.old net.new }
    ensures shows { IfOk result (Shows net.old net.new 32
        (λ g. effect.bit_result bits.Set (value_at net.old g word) (value_at net.old g index))) }
{
    let alone = bit_alone(net, index)?;
    let whole = net.or(word, alone)?;
    Ok(whole)
}

/// What becomes of the word, by the bit of this number.
fn bit_result(net: &mut Net, row: BitRow, word: NodeId, index: NodeId) -> Result<NodeId, Memory>
    requires word { IsNodeOf net.old 32 word }
    requires index { IsNodeOf net.old 5 index }
    ensures adds { AddsNodes net.old net.new }
    ensures shows { IfOk result (Shows net.old net.new 32
        (λ g. effect.bit_result row (value_at net.old g word) (value_at net.old g index))) }
{
    match row {
        BitRow::Clear => cleared(net, word, index),
        BitRow::Extract => extracted(net, word, index),
        BitRow::Invert => inverted(net, word, index),
        BitRow::Set => set(net, word, index),
    }
}

/// The sum of the second source and the first one, moved to the left.
fn shifted_sum(net: &mut Net, row: ShiftAddRow, s1: NodeId, s2: NodeId) -> Result<NodeId, Memory>
    requires first { IsNodeOf net.old 32 s1 }
    requires second { IsNodeOf net.old 32 s2 }
    ensures adds { AddsNodes net.old net.new }
    ensures shows { IfOk result (Shows net.old net.new 32
        (λ g. effect.shifted_sum (effect.shift row) (value_at net.old g s1) (value_at net.old g s2))) }
{
    let by = constant(net, 2, row.shift())?;
    let moved = net.shl(s1, by)?;
    let total = sum(net, moved, s2)?;
    Ok(total)
}

/// The bit's number is in the low five bits of the second source.
fn register_result(
    net: &mut Net,
    row: BitRow,
    word: NodeId,
    s1: NodeId,
    s2: NodeId,
) -> Result<NodeId, Memory>
    requires first { IsNodeOf net.old 32 s1 }
    requires second { IsNodeOf net.old 32 s2 }
    ensures adds { AddsNodes net.old net.new }
    ensures shows { IfOk result (Shows net.old net.new 32 (λ g. effect.zb_result (zb.Bit row)
        (value_at net.old g word) (value_at net.old g s1) (value_at net.old g s2))) }
{
    let index = field(net, s2, 4, 0)?;
    let value = bit_result(net, row, s1, index)?;
    Ok(value)
}

/// It is in the bits 24:20 of the word.
fn immediate_result(
    net: &mut Net,
    row: BitRow,
    word: NodeId,
    s1: NodeId,
    s2: NodeId,
) -> Result<NodeId, Memory>
    requires word { IsNodeOf net.old 32 word }
    requires first { IsNodeOf net.old 32 s1 }
    ensures adds { AddsNodes net.old net.new }
    ensures shows { IfOk result (Shows net.old net.new 32 (λ g. effect.zb_result (zb.BitImmediate row)
        (value_at net.old g word) (value_at net.old g s1) (value_at net.old g s2))) }
{
    let index = field(net, word, 24, 20)?;
    let value = bit_result(net, row, s1, index)?;
    Ok(value)
}

/// What an instruction of the row computes of its word and its sources.
pub(crate) fn result_node(
    net: &mut Net,
    row: ZbRow,
    word: NodeId,
    s1: NodeId,
    s2: NodeId,
) -> Result<NodeId, Memory>
    requires word { IsNodeOf net.old 32 word }
    requires first { IsNodeOf net.old 32 s1 }
    requires second { IsNodeOf net.old 32 s2 }
    ensures adds { AddsNodes net.old net.new }
    ensures shows { IfOk result (Shows net.old net.new 32 (λ g. effect.zb_result row
        (value_at net.old g word) (value_at net.old g s1) (value_at net.old g s2))) }
{
    match row {
        ZbRow::ShiftAdd(row) => shifted_sum(net, row, s1, s2),
        ZbRow::Bit(row) => register_result(net, row, word, s1, s2),
        ZbRow::BitImmediate(row) => immediate_result(net, row, word, s1, s2),
    }
}
