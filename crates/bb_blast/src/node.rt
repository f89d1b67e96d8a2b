//! The literals of a node, by those of the nodes that it reads.
ghost use Rattle.std.specs.Prelude.{◌≡◌, ℕ, ◌+◌, ◌<◌, ◌≤◌, [], List, length, IfOk, slice_index};
ghost use Rattle.std.specs.Prelude.{slice_index_or};
ghost use Rattle.wn_net.specs.Width.{IsThere, AreThere, AreAlike};
ghost use Rattle.wn_net.specs.declared.node.Node.TheVariants as kind;
ghost use Rattle.bb_aig.specs.Gates.{Grows};
ghost use Rattle.bb_blast.specs.Walk.{Reads, IsReady, MeansPairAt, MeansShiftAt, MeansWord, MeansNode};

use bb_aig::{Gates, Lit};
use bb_words::{
    PairOperator, ShiftOperator, chosen, joined, konst, negated, operated, part, shifted,
    sign_extended, zero_extended,
};
use fv_text::{List, Memory};
use std::alloc::Global;
use wn_net::{Node, NodeId};

/// The literals at a place.
pub(crate) fn word_at(table: &[List<Lit>], id: NodeId) -> &[Lit]
    requires { id < length table.now }
    ensures { result.now ≡ slice_index_or table.now id [] }
{
    table[id as usize].as_slice()
}

fn input_node(alloc: Global, inputs: &[List<Lit>], input: u32) -> Result<List<Lit>, Memory>
    requires { input < length inputs.now }
    ensures { IfOk result (λ r. r ≡ slice_index_or inputs.now input []) }
{
    let made = Vec::from_slice(alloc, word_at(inputs, u64::from(input)))?;
    Ok(List::from_vec(made))
}

fn not_node(
    alloc: Global,
    gates: &Gates,
    table: &[List<Lit>],
    a: NodeId,
) -> Result<List<Lit>, Memory>
    requires { Reads gates.now table.now (λ ws. IsThere ws a) }
    ensures { IfOk result (MeansWord gates.now gates.now table.now (kind.Not a)) }
{
    let made = negated(alloc, word_at(table, a))?;
    Ok(made)
}

fn pair_node(
    alloc: Global,
    gates: &mut Gates,
    table: &[List<Lit>],
    operator: PairOperator,
    a: NodeId,
    b: NodeId,
) -> Result<List<Lit>, Memory>
    requires { Reads gates.old table.now (λ ws. AreAlike ws a b) }
    ensures grows { Grows gates.old gates.new }
    ensures word { IfOk result (MeansPairAt gates.old gates.new table.now operator a b) }
{
    let left = word_at(table, a);
    let right = word_at(table, b);
    let made = operated(alloc, gates, operator, left, right)?;
    Ok(made)
}

fn shift_node(
    alloc: Global,
    gates: &mut Gates,
    table: &[List<Lit>],
    operator: ShiftOperator,
    a: NodeId,
    b: NodeId,
) -> Result<List<Lit>, Memory>
    requires { Reads gates.old table.now (λ ws. AreThere ws a b) }
    ensures grows { Grows gates.old gates.new }
    ensures word { IfOk result (MeansShiftAt gates.old gates.new table.now operator a b) }
{
    let word = word_at(table, a);
    let by = word_at(table, b);
    let made = shifted(alloc, gates, operator, word, by)?;
    Ok(made)
}

fn concat_node(
    alloc: Global,
    gates: &Gates,
    table: &[List<Lit>],
    a: NodeId,
    b: NodeId,
) -> Result<List<Lit>, Memory>
    requires { Reads gates.now table.now (λ ws. AreThere ws a b) }
    ensures { IfOk result (MeansWord gates.now gates.now table.now (kind.Concat a b)) }
{
    let high = word_at(table, a);
    let low = word_at(table, b);
    let made = joined(alloc, high, low)?;
    Ok(made)
}

fn mux_node(
    alloc: Global,
    gates: &mut Gates,
    table: &[List<Lit>],
    test: NodeId,
    a: NodeId,
    b: NodeId,
) -> Result<List<Lit>, Memory>
    requires { Reads gates.old table.now (λ ws. IsThere ws test × (slice_index ws test ≡ 1) × AreAlike ws a b) }
    ensures grows { Grows gates.old gates.new }
    ensures word { IfOk result (MeansWord gates.old gates.new table.now (kind.Mux test a b)) }
{
    let tests = word_at(table, test);
    let left = word_at(table, a);
    let right = word_at(table, b);
    let made = chosen(alloc, gates, tests[0], left, right)?;
    Ok(made)
}

fn slice_node(
    alloc: Global,
    gates: &Gates,
    table: &[List<Lit>],
    a: NodeId,
    low: u32,
    width: u32,
) -> Result<List<Lit>, Memory>
    requires { Reads gates.now table.now (λ ws. IsThere ws a × (1 ≤ width) × (low + width ≤ slice_index ws a)) }
    ensures { IfOk result (MeansWord gates.now gates.now table.now (kind.Slice a low width)) }
{
    let made = part(alloc, word_at(table, a), low as usize, width as usize)?;
    Ok(made)
}

fn zext_node(
    alloc: Global,
    gates: &Gates,
    table: &[List<Lit>],
    a: NodeId,
    width: u32,
) -> Result<List<Lit>, Memory>
    requires { Reads gates.now table.now (λ ws. IsThere ws a × (slice_index ws a ≤ width) × (width ≤ 128)) }
    ensures { IfOk result (MeansWord gates.now gates.now table.now (kind.Zext a width)) }
{
    let made = zero_extended(alloc, gates, word_at(table, a), width as usize)?;
    Ok(made)
}

fn sext_node(
    alloc: Global,
    gates: &Gates,
    table: &[List<Lit>],
    a: NodeId,
    width: u32,
) -> Result<List<Lit>, Memory>
    requires { Reads gates.now table.now (λ ws. IsThere ws a × (slice_index ws a ≤ width) × (width ≤ 128)) }
    ensures { IfOk result (MeansWord gates.now gates.now table.now (kind.Sext a width)) }
{
    let made = sign_extended(alloc, word_at(table, a), width as usize)?;
    Ok(made)
}

/// The literals of a node, by those of the sources and of the nodes before it.
pub(crate) fn node_word(
    alloc: Global,
    gates: &mut Gates,
    node: &Node,
    inputs: &[List<Lit>],
    table: &[List<Lit>],
) -> Result<List<Lit>, Memory>
    requires { IsReady gates.old inputs.now table.now node.now }
    ensures grows { Grows gates.old gates.new }
    ensures word { IfOk result (MeansNode gates.old gates.new inputs.now table.now node.now) }
{
    match *node {
        Node::Konst(word) => konst(alloc, gates, &word),
        Node::Input(i) => input_node(alloc, inputs, i),
        Node::Reg(_) => unreachable!(),
        Node::Read(_, _) => unreachable!(),
        Node::Not(a) => not_node(alloc, gates, table, a),
        Node::And(a, b) => pair_node(alloc, gates, table, PairOperator::And, a, b),
        Node::Or(a, b) => pair_node(alloc, gates, table, PairOperator::Or, a, b),
        Node::Xor(a, b) => pair_node(alloc, gates, table, PairOperator::Xor, a, b),
        Node::Add(a, b) => pair_node(alloc, gates, table, PairOperator::Add, a, b),
        Node::Sub(a, b) => pair_node(alloc, gates, table, PairOperator::Sub, a, b),
        Node::Mul(a, b) => pair_node(alloc, gates, table, PairOperator::Mul, a, b),
        Node::Eq(a, b) => pair_node(alloc, gates, table, PairOperator::Eq, a, b),
        Node::Ult(a, b) => pair_node(alloc, gates, table, PairOperator::Ult, a, b),
        Node::Slt(a, b) => pair_node(alloc, gates, table, PairOperator::Slt, a, b),
        Node::Shl(a, b) => shift_node(alloc, gates, table, ShiftOperator::Shl, a, b),
        Node::Lshr(a, b) => shift_node(alloc, gates, table, ShiftOperator::Lshr, a, b),
        Node::Ashr(a, b) => shift_node(alloc, gates, table, ShiftOperator::Ashr, a, b),
        Node::Concat(a, b) => concat_node(alloc, gates, table, a, b),
        Node::Mux(test, a, b) => mux_node(alloc, gates, table, test, a, b),
        Node::Slice(a, low, width) => slice_node(alloc, gates, table, a, low, width),
        Node::Zext(a, width) => zext_node(alloc, gates, table, a, width),
        Node::Sext(a, width) => sext_node(alloc, gates, table, a, width),
    }
}
