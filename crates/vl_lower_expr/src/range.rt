//! Parts of vectors whose bounds are constants, and counts (IEEE 1364-2005, sections 5.1.14 and 5.2.1).
#![tactic(auto, using(wn_net::proofs::Laws::additions))]

ghost use Rattle.std.specs.Prelude.{◌≡◌, ◌≤◌, ◌*◌, true, IsSome, IfOk, pos};
ghost use Rattle.fv_text.specs.declared.pos.Pos.{Pos};
ghost use Rattle.vl_tree.specs.Expr.{part, whole};
ghost use Rattle.vl_size.specs.Size as spec;
ghost use Rattle.vl_size.specs.Size.{Cells, is_bound};
ghost use Rattle.vl_size.specs.Table as table;
ghost use Rattle.wn_net.specs.Net.{IsNodeOf, value_at};
ghost use Rattle.wn_net.specs.Changes.{AddsNodes, Shows};
ghost use Rattle.vl_lower_nodes.specs.Points.{is_place};

use crate::bindings::Bindings;
use crate::constants::constant;
use crate::word_type::WordType;
use fv_text::Memory;
use vl_lower_nodes::{fit, part_from};
use vl_size::Decl;
use vl_size::place::word_of;
use vl_size::select::{part_size, times};
use vl_tree::Expr;
use wn_net::{Net, NodeId};

/// Bits of a vector: how many, and the place of the lowest, counted from the vector's lowest bit.
#[derive(Debug, Clone, Copy)]
pub struct BitRange {
    pub count: u32,
    pub place: i64,
}

/// The place of an index in a vector.
fn offset_of(decl: &Decl, index: i64) -> i64
    requires right { is_bound decl.now.right ≡ true }
    requires index { is_bound index ≡ true }
    ensures value { result ≡ spec.offset_of decl.now index }
    ensures place { is_place result ≡ true }
{
    if decl.right <= decl.left {
        index - decl.right
    } else {
        decl.right - index
    }
}

/// The bits that the part `[left:right]` takes.
pub fn range_of(decl: &Decl, left: &Expr, right: &Expr, names: Bindings<'_>) -> BitRange
    requires bound { is_bound decl.now.right ≡ true }
    requires sized { (p : Pos) → IsSome (spec.vector_size names.decls.now decl.now (part p left.now right.now whole)) }
    ensures count { (v : Cells) → result.count ≡ table.span (spec.index_of
        (spec.operand_of names.entry.decls.now v left.now))
        (spec.index_of (spec.operand_of names.entry.decls.now v right.now)) }
    ensures place { (v : Cells) → result.place
        ≡ spec.offset_of decl.now (spec.index_of (spec.operand_of names.entry.decls.now v right.now)) }
    ensures some { 1 ≤ result.count }
    ensures few { result.count ≤ 128 }
    ensures near { is_place result.place ≡ true }
{
    let left = constant(left, names);
    let right = constant(right, names);
    let Some(count) = part_size(decl, left, right) else {
        unreachable!()
    };
    let Some(low) = word_of((-(1 << 31), (1 << 31) - 1), right) else {
        unreachable!()
    };
    let place = offset_of(decl, low as i64);
    BitRange { count, place }
}

/// The bits `[left:right]` of a vector in a context.
pub(crate) fn part_select(
    net: &mut Net,
    names: Bindings<'_>,
    decl: &Decl,
    vector: NodeId,
    left: &Expr,
    right: &Expr,
    kind: WordType,
) -> Result<NodeId, Memory>
    requires vector { IsNodeOf net.old decl.now.width vector }
    requires bound { is_bound decl.now.right ≡ true }
    requires sized { (p : Pos) → IsSome (spec.vector_size names.decls.now decl.now (part p left.now right.now whole)) }
    ensures adds { AddsNodes net.old net.new }
    ensures shows { (p : Pos) (v : Cells) → IfOk result (Shows net.old net.new kind.width
        (λ g. spec.vector_value names.entry.decls.now v kind.width kind.signed decl.now (value_at net.old g vector)
        (part p left.now right.now whole))) }
{
    let range = range_of(decl, left, right, names);
    let bits = part_from(net, vector, range.place, range.count)?;
    let fitted = fit(net, bits, kind.width, kind.signed)?;
    Ok(fitted)
}

/// A count of copies of so many bits.
pub fn count_of(count: &Expr, size: u32, names: Bindings<'_>) -> u32
    requires constant { spec.is_constant count.now ≡ true }
    requires some { 1 ≤ size }
    requires few { size ≤ 128 }
    requires sized { (v : Cells) → IsSome (spec.times (spec.index_of
        (spec.operand_of names.decls.now v count.now)) size) }
    ensures value { (v : Cells) → spec.index_of (spec.operand_of names.entry.decls.now v count.now) ≡ pos result }
    ensures some { 1 ≤ result }
    ensures few { result * size ≤ 128 }
{
    let own = constant(count, names);
    let Some(_bits) = times(own, size) else {
        unreachable!()
    };
    own.number as u32
}
