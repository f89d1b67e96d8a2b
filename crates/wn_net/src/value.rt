//! The value of one node.
ghost use Rattle.std.specs.Prelude.{
  ◌≡◌,
  ◌==◌,
  if◌then◌else◌,
  ℕ,
  ◌+◌,
  ◌<◌,
  ◌≤◌,
  ◌^◌,
  length,
  slice_index,
};
ghost use Rattle.wn_net.specs.Width.{Shape, IsFitting};
ghost use Rattle.wn_net.specs.Value as spec;
ghost use Rattle.wn_net.specs.Value.{word_at};
ghost use Rattle.wn_net.specs.Given.{given};

use crate::node::{Node, NodeId};
use crate::parts::State;
use fv_bits::{
    arithmetic_right, bit, complement, difference, is_less_signed, joined, part, product,
    shifted_left, shifted_right, sign_extended, sum,
};
use fv_text::List;

/// The number at the place; 0 past the end.
pub(crate) fn number_at(numbers: &List<u128>, place: u128) -> u128
    ensures { result ≡ word_at numbers.now place }
{
    if place >= numbers.len() as u128 {
        return 0;
    }
    match numbers.get(place as usize) {
        Some(number) => *number,
        None => 0,
    }
}

/// The word of a memory at an address; 0 past the last.
fn word_of(mems: &List<List<u128>>, mem: u32, address: u128) -> u128
    ensures { result ≡ word_at (spec.words_at mems.now mem) address }
{
    if mem as usize >= mems.len() {
        return 0;
    }
    match mems.get(mem as usize) {
        Some(words) => number_at(words, address),
        None => 0,
    }
}

/// The number of an input; 0 past the last.
fn input_at(inputs: &[u128], place: u32) -> u128
    ensures { result ≡ slice_index inputs.now place }
{
    match inputs.get(place as usize) {
        Some(number) => *number,
        None => 0,
    }
}

/// The value of a node.
pub(crate) fn at(values: &[u128], id: &NodeId) -> u128
    requires { id.now < length values.now }
    ensures { result ≡ slice_index values.now id.now }
{
    values[*id as usize]
}

/// The width of a node.
fn of(widths: &[u32], id: &NodeId) -> u32
    requires { id.now < length widths.now }
    ensures { result ≡ slice_index widths.now id.now }
{
    widths[*id as usize]
}

/// The one number where the test is 1, and else the other.
fn chosen(test: u128, yes: u128, no: u128) -> u128
    ensures { result ≡ (if test == 1 then yes else no) }
{
    if test == 1 { yes } else { no }
}

/// The value of a node behind others, of which the widths and the values are told.
pub(crate) fn node_value(
    node: &Node,
    inputs: &[u128],
    state: &State,
    widths: &[u32],
    values: &[u128],
) -> u128
    requires fits { (shape : Shape) × IsFitting shape widths.now node.now }
    requires some { (i : ℕ) → i < length widths.now → 1 ≤ slice_index widths.now i }
    requires few { (i : ℕ) → slice_index widths.now i ≤ 128 }
    requires below { (i : ℕ) → slice_index values.now i < 2 ^ slice_index widths.now i }
    requires each { length values.now ≡ length widths.now }
    ensures { result ≡ spec.value (given inputs.now state.now) widths.now values.now node.now }
{
    match node {
        Node::Konst(word) => word.value(),
        Node::Input(i) => input_at(inputs, *i),
        Node::Reg(i) => number_at(&state.regs, u128::from(*i)),
        Node::Read(mem, a) => word_of(&state.mems, *mem, at(values, a)),
        Node::Not(a) => complement(of(widths, a), at(values, a)),
        Node::And(a, b) => at(values, a) & at(values, b),
        Node::Or(a, b) => at(values, a) | at(values, b),
        Node::Xor(a, b) => at(values, a) ^ at(values, b),
        Node::Add(a, b) => sum(of(widths, a), at(values, a), at(values, b)),
        Node::Sub(a, b) => difference(of(widths, a), at(values, a), at(values, b)),
        Node::Mul(a, b) => product(of(widths, a), at(values, a), at(values, b)),
        Node::Eq(a, b) => bit(at(values, a) == at(values, b)),
        Node::Ult(a, b) => bit(at(values, a) < at(values, b)),
        Node::Slt(a, b) => bit(is_less_signed(of(widths, a), at(values, a), at(values, b))),
        Node::Shl(a, b) => shifted_left(of(widths, a), at(values, a), at(values, b)),
        Node::Lshr(a, b) => shifted_right(at(values, a), at(values, b)),
        Node::Ashr(a, b) => arithmetic_right(of(widths, a), at(values, a), at(values, b)),
        Node::Concat(a, b) => joined(of(widths, a), of(widths, b), at(values, a), at(values, b)),
        Node::Mux(c, a, b) => chosen(at(values, c), at(values, a), at(values, b)),
        Node::Slice(a, low, width) => part(*low, *width, at(values, a)),
        Node::Zext(a, _) => at(values, a),
        Node::Sext(a, width) => sign_extended(of(widths, a), *width, at(values, a)),
    }
}
