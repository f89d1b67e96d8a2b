//! Words of memories at an index (IEEE 1364-2005, sections 4.9.3 and 5.2.2).
#![tactic(auto, using(wn_net::proofs::Laws::additions))]

ghost use Rattle.std.specs.Prelude.{◌≡◌, ◌-ℤ◌, true, Some, IsSome, IfOk, int_le, nat_abs};
ghost use Rattle.fv_text.specs.declared.pos.Pos.{Pos};
ghost use Rattle.vl_tree.specs.Expr.{bit, whole};
ghost use Rattle.vl_tree.specs.ExprView.{selects, with_select};
ghost use Rattle.vl_size.specs.Size as spec;
ghost use Rattle.vl_size.specs.Size.{index_of, is_bound, is_constant, or_none, size};
ghost use Rattle.vl_size.specs.Table.{is_between, span};
ghost use Rattle.vl_mean.specs.FlatLaw.{flat_scopes};
ghost use Rattle.vl_mean.specs.Scopes.{operand_in};
ghost use Rattle.vl_mean.specs.Targets.{full_word, word_index, word_spots};
ghost use Rattle.vl_mean.specs.Targets as targets;
ghost use Rattle.wn_net.specs.Net.{Netlist};
ghost use Rattle.vl_lower_assign.specs.Frames.{AreCellsOf};
ghost use Rattle.vl_lower_stmt.specs.Layout.{IsDeclaredAt, IsLayout};
ghost use Rattle.vl_lower_stmt.specs.Located.{IsHeld, IsLocated};

use crate::layout::{Layout, names_over};
use crate::place::slot_in;
use crate::value::own_number;
use fv_text::Memory;
use vl_flow_cells::are_fixed;
use vl_lower_assign::{Holder, Slot};
use vl_lower_expr::constant;
use vl_lower_nodes::address;
use vl_size::place::word_of;
use vl_size::{Decl, sign_of};
use vl_tree::{Expr, Select};
use wn_net::{Net, NodeId};

/// How many words lie between the bounds.
fn word_count(words: (i64, i64)) -> usize
    requires left { is_bound words.0 ≡ true }
    requires right { is_bound words.1 ≡ true }
    ensures { result ≡ span words.0 words.1 }
{
    (words.0 - words.1).unsigned_abs() as usize + 1
}

/// How many words lie before the one of an index.
fn words_before(words: (i64, i64), index: i128) -> usize
    requires left { is_bound words.0 ≡ true }
    requires right { is_bound words.1 ≡ true }
    requires between { is_between words.0 words.1 index ≡ true }
    ensures { result ≡ nat_abs (index -ℤ words.0) }
{
    (index - i128::from(words.0)).unsigned_abs() as usize
}

/// Whether the right bound isn't below the left one.
fn ascends(words: (i64, i64)) -> bool
    ensures { result ≡ int_le words.0 words.1 }
{
    words.0 <= words.1
}

/// The cell of the word at a constant index, of a memory whose first word stands in this cell; none past the bounds.
fn fixed_word(
    layout: Layout<'_>,
    cells: &[NodeId],
    decl: &Decl,
    words: (i64, i64),
    first: usize,
    index: &Expr,
) -> Holder
    requires layout { IsLayout layout.decls.now layout.places.now }
    requires first { IsDeclaredAt layout.decls.now decl.now first }
    requires words { decl.now.words ≡ Some words }
    requires constant { is_constant index.now ≡ true }
    ensures { (net : Netlist) → IsHeld layout.entry.decls.now net net cells.now decl.now.width result
        (λ v. full_word decl.now.name (word_index decl.now.words
        (index_of (operand_in (flat_scopes layout.entry.decls.now) v index.now)))) }
{
    match word_of(words, constant(index, names_over(layout, cells))) {
        None => Holder::Nowhere,
        Some(index) => Holder::Cell(first + words_before(words, index)),
    }
}

/// The cell of the word at an index.
fn word_holder(
    net: &mut Net,
    layout: Layout<'_>,
    cells: &[NodeId],
    decl: &Decl,
    words: (i64, i64),
    first: usize,
    index: &Expr,
    fixed: bool,
) -> Result<Holder, Memory>
    requires layout { IsLayout layout.decls.now layout.places.now }
    requires cells { AreCellsOf net.old layout.decls.now cells.now }
    requires first { IsDeclaredAt layout.decls.now decl.now first }
    requires words { decl.now.words ≡ Some words }
    requires sized { IsSome (size layout.decls.now index.now) }
    requires fixed { fixed ≡ true → is_constant index.now ≡ true }
    ensures { IfOk result (λ h. IsHeld layout.entry.decls.now net.old net.new cells.now decl.now.width h
        (λ v. full_word decl.now.name (word_index decl.now.words
        (index_of (operand_in (flat_scopes layout.entry.decls.now) v index.now))))) }
{
    if fixed {
        return Ok(fixed_word(layout, cells, decl, words, first, index));
    }
    let node = own_number(net, layout, cells, index)?;
    let signed = sign_of(index, layout.decls);
    let address = address(net, node, signed, words.0, ascends(words))?;
    Ok(Holder::Word {
        first,
        count: word_count(words),
        address,
    })
}

/// The bits that a select takes of the word at an index, or all of them.
fn indexed_word(
    net: &mut Net,
    layout: Layout<'_>,
    cells: &[NodeId],
    decl: &Decl,
    words: (i64, i64),
    first: usize,
    index: &Expr,
    behind: &[Select],
    fixed: bool,
) -> Result<Slot, Memory>
    requires layout { IsLayout layout.decls.now layout.places.now }
    requires cells { AreCellsOf net.old layout.decls.now cells.now }
    requires first { IsDeclaredAt layout.decls.now decl.now first }
    requires words { decl.now.words ≡ Some words }
    requires sized { IsSome (size layout.decls.now index.now) }
    requires behind { IsSome (spec.vector_size layout.decls.now decl.now (selects behind.now)) }
    requires fixed { fixed ≡ true → is_constant index.now ≡ true }
    ensures { (p : Pos) → IfOk result (λ slot. IsLocated layout.entry.decls.now net.old net.new cells.now slot
        (or_none (spec.word_size layout.entry.decls.now decl.now (bit p index.now (selects behind.now))))
        (λ v. word_spots (flat_scopes layout.entry.decls.now) v decl.now (bit p index.now (selects behind.now)))) }
{
    let holder = word_holder(net, layout, cells, decl, words, first, index, fixed)?;
    let slot = slot_in(net, layout, cells, decl, holder, behind)?;
    Ok(slot)
}

/// The bits that selects of a memory take: those of a word.
fn selected_word(
    net: &mut Net,
    layout: Layout<'_>,
    cells: &[NodeId],
    decl: &Decl,
    words: (i64, i64),
    first: usize,
    select: &Select,
    behind: &[Select],
    fixed: bool,
) -> Result<Slot, Memory>
    requires layout { IsLayout layout.decls.now layout.places.now }
    requires cells { AreCellsOf net.old layout.decls.now cells.now }
    requires first { IsDeclaredAt layout.decls.now decl.now first }
    requires words { decl.now.words ≡ Some words }
    requires sized { IsSome (spec.word_size layout.decls.now decl.now (with_select select.now (selects behind.now))) }
    requires fixed { fixed ≡ true → targets.are_fixed (flat_scopes layout.decls.now) (with_select select.now whole) ≡
        true }
    ensures { IfOk result (λ slot. IsLocated layout.entry.decls.now net.old net.new cells.now slot
        (or_none (spec.word_size layout.entry.decls.now decl.now (with_select select.now (selects behind.now))))
        (λ v. word_spots (flat_scopes layout.entry.decls.now) v decl.now
        (with_select select.now (selects behind.now)))) }
{
    match select {
        Select::Bit(_, index) => {
            let slot = indexed_word(net, layout, cells, decl, words, first, index, behind, fixed)?;
            Ok(slot)
        }
        Select::Part(_, _, _) => unreachable!(),
        Select::Indexed(_, _, _) => unreachable!(),
    }
}

/// The bits that selects of a memory take, whose first word stands in this cell.
pub(crate) fn word_slot(
    net: &mut Net,
    layout: Layout<'_>,
    cells: &[NodeId],
    decl: &Decl,
    first: usize,
    all: &[Select],
) -> Result<Slot, Memory>
    requires layout { IsLayout layout.decls.now layout.places.now }
    requires cells { AreCellsOf net.old layout.decls.now cells.now }
    requires first { IsDeclaredAt layout.decls.now decl.now first }
    requires memory { IsSome decl.now.words }
    requires sized { IsSome (spec.word_size layout.decls.now decl.now (selects all.now)) }
    ensures { IfOk result (λ slot. IsLocated layout.entry.decls.now net.old net.new cells.now slot
        (or_none (spec.word_size layout.entry.decls.now decl.now (selects all.now)))
        (λ v. word_spots (flat_scopes layout.entry.decls.now) v decl.now (selects all.now))) }
{
    let Some(words) = decl.words else {
        unreachable!()
    };
    match all.split_first() {
        None => unreachable!(),
        Some((select, behind)) => {
            let fixed = are_fixed(&all[..1]);
            let slot = selected_word(
                net, layout, cells, decl, words, first, select, behind, fixed,
            )?;
            Ok(slot)
        }
    }
}
