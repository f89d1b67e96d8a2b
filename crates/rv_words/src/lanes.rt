//! The bytes of loads and stores, in the word that memory gives and takes.
#![tactic(auto, using(wn_net::proofs::Laws::additions, crate::proofs::WordLemmas::places))]

ghost use Rattle.std.specs.Prelude.{
  ◌≡◌,
  ◌==◌,
  true,
  not,
  ◌-◌,
  ◌*◌,
  ◌%◌,
  ◌<◌,
  ◌≤◌,
  ◌^◌,
  IfOk,
};
ghost use Rattle.fv_bits.specs.Bits.{bit};
ghost use Rattle.rv_table.specs.Effect as effect;
ghost use Rattle.wn_net.specs.Net.{IsNodeOf, value_at};
ghost use Rattle.wn_net.specs.Changes.{AddsNodes, Shows};
ghost use Rattle.rv_words.specs.Nodes.{step_at};
ghost use Rattle.rv_words.specs.Parts.{is_size};

use crate::constants::{bit, constant};
use crate::fields::{field, raised, sign_extended};
use crate::step::StepNodes;
use crate::tests::isnt_number;
use fv_text::Memory;
use rv_table::LoadRow;
use wn_net::{Net, NodeId};

/// The word with its two lowest bits cleared.
fn whole(net: &mut Net, address: NodeId) -> Result<NodeId, Memory>
    requires { IsNodeOf net.old 32 address }
    ensures adds { AddsNodes net.old net.new }
    ensures shows { IfOk result (Shows net.old net.new 32
        (λ g. value_at net.old g address - value_at net.old g address % 4)) }
{
    let _ = net.width(address);
    let upper = field(net, address, 31, 2)?;
    let word = raised(net, upper, 30, 2)?;
    Ok(word)
}

/// The address of the word in which an instruction reaches memory at this address.
pub fn word_address(net: &mut Net, step: &StepNodes, address: NodeId) -> Result<NodeId, Memory>
    requires { IsNodeOf net.old 32 address }
    ensures adds { AddsNodes net.old net.new }
    ensures shows { IfOk result (Shows net.old net.new 32
        (λ g. effect.word_address (step_at net.old g step.now) (value_at net.old g address))) }
{
    if step.opts.aligned {
        whole(net, address)
    } else {
        Ok(address)
    }
}

/// Where in that word the bytes begin, in two bits.
pub fn place_in_word(net: &mut Net, step: &StepNodes, address: NodeId) -> Result<NodeId, Memory>
    requires { IsNodeOf net.old 32 address }
    ensures adds { AddsNodes net.old net.new }
    ensures shows { IfOk result (Shows net.old net.new 2
        (λ g. effect.place_in_word (step_at net.old g step.now) (value_at net.old g address))) }
{
    if step.opts.aligned {
        low_two(net, address)
    } else {
        constant(net, 2, 0)
    }
}

fn low_two(net: &mut Net, address: NodeId) -> Result<NodeId, Memory>
    requires { IsNodeOf net.old 32 address }
    ensures adds { AddsNodes net.old net.new }
    ensures shows { IfOk result (Shows net.old net.new 2 (λ g. value_at net.old g address % 4)) }
{
    let place = net.slice(address, 0, 2)?;
    Ok(place)
}

/// 1 where the address is no multiple of 4.
pub fn isnt_of_word(net: &mut Net, address: NodeId) -> Result<NodeId, Memory>
    requires { IsNodeOf net.old 32 address }
    ensures adds { AddsNodes net.old net.new }
    ensures shows { IfOk result (Shows net.old net.new 1
        (λ g. bit (not (value_at net.old g address % 4 == 0)))) }
{
    let place = low_two(net, address)?;
    let test = isnt_number(net, place, 2, 0)?;
    Ok(test)
}

/// 1 where the address is odd.
fn is_odd(net: &mut Net, address: NodeId) -> Result<NodeId, Memory>
    requires { IsNodeOf net.old 32 address }
    ensures adds { AddsNodes net.old net.new }
    ensures shows { IfOk result (Shows net.old net.new 1
        (λ g. bit (not (value_at net.old g address % 2 == 0)))) }
{
    let place = net.slice(address, 0, 1)?;
    let test = isnt_number(net, place, 1, 0)?;
    Ok(test)
}

/// 1 where memory is aligned, and isn't reached at a multiple of the size.
pub fn is_misaligned(
    net: &mut Net,
    step: &StepNodes,
    size: u32,
    address: NodeId,
) -> Result<NodeId, Memory>
    requires size { is_size size ≡ true }
    requires there { IsNodeOf net.old 32 address }
    ensures adds { AddsNodes net.old net.new }
    ensures shows { IfOk result (Shows net.old net.new 1
        (λ g. bit (effect.is_misaligned (step_at net.old g step.now) size (value_at net.old g address)))) }
{
    if !step.opts.aligned || size == 1 {
        bit(net, false)
    } else if size == 2 {
        is_odd(net, address)
    } else {
        isnt_of_word(net, address)
    }
}

/// One bit for each of so many bytes from the place on, cut to the four bytes of a word.
pub fn mask_at(net: &mut Net, size: u32, place: NodeId) -> Result<NodeId, Memory>
    requires most { size ≤ 4 }
    requires place { IsNodeOf net.old 2 place }
    ensures adds { AddsNodes net.old net.new }
    ensures shows { IfOk result (Shows net.old net.new 4
        (λ g. effect.mask_at size (value_at net.old g place))) }
{
    let mask = constant(net, 4, (1 << size) - 1)?;
    let moved = net.shl(mask, place)?;
    Ok(moved)
}

/// Eight times the place: the bits before its byte.
fn bits_before(net: &mut Net, place: NodeId) -> Result<NodeId, Memory>
    requires { IsNodeOf net.old 2 place }
    ensures adds { AddsNodes net.old net.new }
    ensures shows { IfOk result (Shows net.old net.new 5 (λ g. 8 * value_at net.old g place)) }
{
    let before = raised(net, place, 2, 3)?;
    Ok(before)
}

/// So many bytes of the word, from the place on, in as many bits.
pub fn bytes_from(net: &mut Net, size: u32, place: NodeId, word: NodeId) -> Result<NodeId, Memory>
    requires some { 1 ≤ size }
    requires most { size ≤ 4 }
    requires place { IsNodeOf net.old 2 place }
    requires word { IsNodeOf net.old 32 word }
    ensures adds { AddsNodes net.old net.new }
    ensures shows { IfOk result (Shows net.old net.new (8 * size)
        (λ g. effect.bytes_from size (value_at net.old g place) (value_at net.old g word))) }
{
    let before = bits_before(net, place)?;
    let moved = net.lshr(word, before)?;
    let bytes = net.slice(moved, 0, 8 * size)?;
    Ok(bytes)
}

/// So many low bytes of the word, as a word.
fn low_bytes(net: &mut Net, size: u32, word: NodeId) -> Result<NodeId, Memory>
    requires some { 1 ≤ size }
    requires most { size ≤ 4 }
    requires word { IsNodeOf net.old 32 word }
    ensures adds { AddsNodes net.old net.new }
    ensures shows { IfOk result (Shows net.old net.new 32
        (λ g. value_at net.old g word % 2 ^ (8 * size))) }
{
    let bytes = net.slice(word, 0, 8 * size)?;
    let word = net.zext(bytes, 32)?;
    Ok(word)
}

/// The low bytes of the word, put to the place.
pub fn bytes_to(net: &mut Net, size: u32, place: NodeId, word: NodeId) -> Result<NodeId, Memory>
    requires some { 1 ≤ size }
    requires most { size ≤ 4 }
    requires place { IsNodeOf net.old 2 place }
    requires word { IsNodeOf net.old 32 word }
    ensures adds { AddsNodes net.old net.new }
    ensures shows { IfOk result (Shows net.old net.new 32
        (λ g. effect.bytes_to size (value_at net.old g place) (value_at net.old g word))) }
{
    let bytes = low_bytes(net, size, word)?;
    let before = bits_before(net, place)?;
    let moved = net.shl(bytes, before)?;
    Ok(moved)
}

/// What a register gets of the bytes of a load of the row.
pub fn extended(net: &mut Net, row: LoadRow, bytes: NodeId) -> Result<NodeId, Memory>
    requires { IsNodeOf net.old (8 * effect.load_size row) bytes }
    ensures adds { AddsNodes net.old net.new }
    ensures shows { IfOk result (Shows net.old net.new 32
        (λ g. effect.extended row (value_at net.old g bytes))) }
{
    match row {
        LoadRow::Lb => sign_extended(net, bytes, 8),
        LoadRow::Lh => sign_extended(net, bytes, 16),
        LoadRow::Lw => Ok(bytes),
        LoadRow::Lbu => zero_extended(net, bytes, 8),
        LoadRow::Lhu => zero_extended(net, bytes, 16),
    }
}

/// The word with the bits of a node of this width at its low end, and zeros above.
pub fn zero_extended(net: &mut Net, node: NodeId, width: u32) -> Result<NodeId, Memory>
    requires node { IsNodeOf net.old width node }
    requires narrow { width ≤ 32 }
    ensures adds { AddsNodes net.old net.new }
    ensures shows { IfOk result (Shows net.old net.new 32 (λ g. value_at net.old g node)) }
{
    let word = net.zext(node, 32)?;
    Ok(word)
}
