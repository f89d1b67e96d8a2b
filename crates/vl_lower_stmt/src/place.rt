//! Where bits of a vector begin, and the bits that selects of a vector take (IEEE 1364-2005, sections 4.2.1 and
//! 5.2.1).
#![tactic(auto, using(wn_net::proofs::Laws::additions))]

ghost use Rattle.std.specs.Prelude.{◌≡◌, ◌-◌, ◌^◌, ◌≤◌, true, IsSome, IfOk, pos, negsuc, ◌+ℤ◌, ◌≤ℤ◌};
ghost use Rattle.fv_text.specs.declared.pos.Pos.{Pos};
ghost use Rattle.vl_tree.specs.Expr.{bit, indexed, part, whole};
ghost use Rattle.vl_tree.specs.ExprView.{selects, with_select};
ghost use Rattle.vl_size.specs.Size as spec;
ghost use Rattle.vl_size.specs.Size.{index_of, is_bound, is_constant, size};
ghost use Rattle.vl_size.specs.Table.{IsShaped};
ghost use Rattle.vl_mean.specs.FlatLaw.{flat_scopes, IsKept};
ghost use Rattle.vl_mean.specs.Scopes.{operand_in};
ghost use Rattle.vl_mean.specs.Targets as targets;
ghost use Rattle.wn_net.specs.Net.{Netlist};
ghost use Rattle.vl_lower_assign.specs.Frames.{AreCellsOf};
ghost use Rattle.vl_lower_nodes.specs.Points.{is_place};
ghost use Rattle.vl_lower_stmt.specs.Layout.{IsLayout};
ghost use Rattle.vl_lower_stmt.specs.Located.{HasBits, IsPlaced};

use crate::layout::{Layout, names_over};
use crate::value::own_number;
use fv_text::Memory;
use vl_flow_cells::are_fixed;
use vl_lower_assign::{BitPlace, Holder, Slot};
use vl_lower_expr::{constant, count_of, range_of};
use vl_lower_nodes::place_from;
use vl_size::place::word_of;
use vl_size::{Decl, sign_of};
use vl_tree::{Expr, Select};
use wn_net::{Net, NodeId};

/// The place of an index in a vector.
fn offset_of(decl: &Decl, index: i64) -> i64
    requires right { is_bound decl.now.right ≡ true }
    requires low { negsuc (2 ^ 32) ≤ℤ index }
    requires high { index ≤ℤ pos (2 ^ 32) }
    ensures value { result ≡ spec.offset_of decl.now index }
    ensures place { is_place result ≡ true }
{
    if decl.right <= decl.left {
        index - decl.right
    } else {
        decl.right - index
    }
}

/// The last index of so many from the first on.
fn last_of(first: i64, count: u32) -> i64
    requires first { is_bound first ≡ true }
    requires some { 1 ≤ count }
    requires few { count ≤ 128 }
    ensures value { result ≡ (first +ℤ pos (count - 1)) }
    ensures low { negsuc (2 ^ 32) ≤ℤ result }
    ensures high { result ≤ℤ pos (2 ^ 32) }
{
    first + (i64::from(count) - 1)
}

/// The place of the lowest of so many bits that stand from an index on.
fn start_of(decl: &Decl, index: i64, count: u32) -> i64
    requires right { is_bound decl.now.right ≡ true }
    requires index { is_bound index ≡ true }
    requires some { 1 ≤ count }
    requires few { count ≤ 128 }
    ensures value { result ≡ spec.start_of decl.now index count }
    ensures place { is_place result ≡ true }
{
    let descends = decl.right <= decl.left;
    if descends {
        return offset_of(decl, index);
    }
    offset_of(decl, last_of(index, count))
}

/// Where so many bits of a vector begin that stand from an index on: known where the index is a constant that may be
/// one of a vector.
fn place_at(
    net: &mut Net,
    layout: Layout<'_>,
    cells: &[NodeId],
    decl: &Decl,
    index: &Expr,
    fixed: bool,
    count: u32,
) -> Result<BitPlace, Memory>
    requires layout { IsLayout layout.decls.now layout.places.now }
    requires cells { AreCellsOf net.old layout.decls.now cells.now }
    requires right { is_bound decl.now.right ≡ true }
    requires sized { IsSome (size layout.decls.now index.now) }
    requires fixed { fixed ≡ true → is_constant index.now ≡ true }
    requires some { 1 ≤ count }
    requires few { count ≤ 128 }
    ensures { IfOk result (λ place. IsPlaced layout.entry.decls.now net.old net.new cells.now place
        (λ v. spec.start_of decl.now (index_of (operand_in (flat_scopes layout.entry.decls.now) v index.now)) count)) }
{
    if fixed {
        let own = constant(index, names_over(layout, cells));
        if let Some(near) = word_of((-(1 << 31), (1 << 31) - 1), own) {
            return Ok(BitPlace::Fixed(start_of(decl, near as i64, count)));
        }
    }
    let node = own_number(net, layout, cells, index)?;
    let place = place_from(net, decl, node, sign_of(index, layout.decls), count)?;
    Ok(BitPlace::Varying(place))
}

/// The bit at an index, of a cell that is held so.
fn bit_slot(
    net: &mut Net,
    layout: Layout<'_>,
    cells: &[NodeId],
    decl: &Decl,
    holder: Holder,
    index: &Expr,
    fixed: bool,
) -> Result<Slot, Memory>
    requires layout { IsLayout layout.decls.now layout.places.now }
    requires cells { AreCellsOf net.old layout.decls.now cells.now }
    requires right { is_bound decl.now.right ≡ true }
    requires sized { IsSome (size layout.decls.now index.now) }
    requires fixed { fixed ≡ true → is_constant index.now ≡ true }
    ensures holder { IfOk result (λ slot. slot.holder ≡ holder) }
    ensures bits { (p : Pos) → IfOk result (HasBits layout.entry.decls.now net.old net.new cells.now decl.now
        (bit p index.now whole)) }
{
    let place = place_at(net, layout, cells, decl, index, fixed, 1)?;
    Ok(Slot {
        holder,
        place,
        count: 1,
        width: decl.width,
    })
}

/// The bits `[left:right]`.
fn part_slot(
    layout: Layout<'_>,
    cells: &[NodeId],
    decl: &Decl,
    holder: Holder,
    left: &Expr,
    right: &Expr,
) -> Slot
    requires layout { IsLayout layout.decls.now layout.places.now }
    requires right { is_bound decl.now.right ≡ true }
    requires sized { (p : Pos) → IsSome (spec.vector_size layout.decls.now decl.now (part p left.now right.now
        whole)) }
    ensures holder { result.holder ≡ holder }
    ensures bits { (net : Netlist) (p : Pos) → HasBits layout.entry.decls.now net net cells.now decl.now
        (part p left.now right.now whole) result }
{
    let range = range_of(decl, left, right, names_over(layout, cells));
    Slot {
        holder,
        place: BitPlace::Fixed(range.place),
        count: range.count,
        width: decl.width,
    }
}

/// The bits `[start +: bits]`.
fn indexed_slot(
    net: &mut Net,
    layout: Layout<'_>,
    cells: &[NodeId],
    decl: &Decl,
    holder: Holder,
    start: &Expr,
    bits: &Expr,
    fixed: bool,
) -> Result<Slot, Memory>
    requires layout { IsLayout layout.decls.now layout.places.now }
    requires cells { AreCellsOf net.old layout.decls.now cells.now }
    requires right { is_bound decl.now.right ≡ true }
    requires sized { (p : Pos) → IsSome (spec.vector_size layout.decls.now decl.now (indexed p start.now bits.now
        whole)) }
    requires fixed { fixed ≡ true → is_constant start.now ≡ true }
    ensures holder { IfOk result (λ slot. slot.holder ≡ holder) }
    ensures bits { (p : Pos) → IfOk result (HasBits layout.entry.decls.now net.old net.new cells.now decl.now
        (indexed p start.now bits.now whole)) }
{
    let count = count_of(bits, 1, names_over(layout, cells));
    let place = place_at(net, layout, cells, decl, start, fixed, count)?;
    Ok(Slot {
        holder,
        place,
        count,
        width: decl.width,
    })
}

/// The bits that one select takes.
fn selected(
    net: &mut Net,
    layout: Layout<'_>,
    cells: &[NodeId],
    decl: &Decl,
    holder: Holder,
    select: &Select,
    fixed: bool,
) -> Result<Slot, Memory>
    requires layout { IsLayout layout.decls.now layout.places.now }
    requires cells { AreCellsOf net.old layout.decls.now cells.now }
    requires right { is_bound decl.now.right ≡ true }
    requires sized { IsSome (spec.vector_size layout.decls.now decl.now (with_select select.now whole)) }
    requires fixed { fixed ≡ true → targets.are_fixed (flat_scopes layout.decls.now) (with_select select.now whole)
        ≡ true }
    ensures holder { IfOk result (λ slot. slot.holder ≡ holder) }
    ensures bits { IfOk result (HasBits layout.entry.decls.now net.old net.new cells.now decl.now
        (with_select select.now whole)) }
{
    match select {
        Select::Bit(_, index) => {
            let slot = bit_slot(net, layout, cells, decl, holder, index, fixed)?;
            Ok(slot)
        }
        Select::Part(_, left, right) => Ok(part_slot(layout, cells, decl, holder, left, right)),
        Select::Indexed(_, start, bits) => {
            let slot = indexed_slot(net, layout, cells, decl, holder, start, bits, fixed)?;
            Ok(slot)
        }
    }
}

/// The bits that selects of a vector take, of a cell that is held so: one select at most.
pub(crate) fn slot_in(
    net: &mut Net,
    layout: Layout<'_>,
    cells: &[NodeId],
    decl: &Decl,
    holder: Holder,
    all: &[Select],
) -> Result<Slot, Memory>
    requires layout { IsLayout layout.decls.now layout.places.now }
    requires cells { AreCellsOf net.old layout.decls.now cells.now }
    requires kept { IsKept decl.now }
    requires shaped { IsShaped decl.now }
    requires sized { IsSome (spec.vector_size layout.decls.now decl.now (selects all.now)) }
    ensures holder { IfOk result (λ slot. slot.holder ≡ holder) }
    ensures bits { IfOk result (HasBits layout.entry.decls.now net.old net.new cells.now decl.now (selects all.now)) }
{
    match all.split_first() {
        None => {
            let width = decl.width;
            Ok(Slot {
                holder,
                place: BitPlace::Fixed(0),
                count: width,
                width,
            })
        }
        Some((select, _behind)) => {
            let fixed = are_fixed(all);
            let slot = selected(net, layout, cells, decl, holder, select, fixed)?;
            Ok(slot)
        }
    }
}
