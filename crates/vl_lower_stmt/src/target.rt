//! Where the bits of targets stand (IEEE 1364-2005, sections 5.1.14 and 5.2).
#![tactic(auto, using(wn_net::proofs::Laws::additions))]

ghost use Rattle.std.specs.Prelude.{◌≡◌, ◌≤◌, IsSome, IfOk, OnOk};
ghost use Rattle.fv_text.specs.declared.pos.Pos.{Pos};
ghost use Rattle.vl_tree.specs.Expr.{name};
ghost use Rattle.vl_tree.specs.ExprView.{selects};
ghost use Rattle.vl_tree.specs.Lval.{lvals};
ghost use Rattle.vl_size.specs.Size.{or_none, size};
ghost use Rattle.vl_mean.specs.FlatLaw.{all_target_sizes, flat_scopes, target_size};
ghost use Rattle.vl_mean.specs.Targets.{all_spots, name_spots, spots};
ghost use Rattle.vl_lower_assign.specs.Frames.{AllSlots, AreCellsOf, slots_width};
ghost use Rattle.vl_lower_stmt.specs.Layout.{IsLayout};
ghost use Rattle.vl_lower_stmt.specs.Located.{AreSizedTargets, IsLocated, IsSizedTarget, Locates};

use crate::layout::{Layout, names_over};
use crate::place::slot_in;
use crate::word::word_slot;
use fv_text::{List, Memory, Text};
use vl_lower_assign::{Holder, Slot};
use vl_lower_expr::{Place, found};
use vl_tree::{Lval, LvalKind, Select};
use wn_net::{Net, NodeId};

/// How many bits slots have.
pub(crate) fn width_of(slots: &[Slot]) -> u32
    requires { slots_width slots.now ≤ 128 }
    ensures { result ≡ slots_width slots.now }
{
    let mut width = 0;
    for slot in slots {
        width += slot.count;
    }
    width
}

/// The bits of a name that selects take.
fn slot_of(
    net: &mut Net,
    layout: Layout<'_>,
    cells: &[NodeId],
    text: &Text,
    all: &[Select],
) -> Result<Slot, Memory>
    requires layout { IsLayout layout.decls.now layout.places.now }
    requires cells { AreCellsOf net.old layout.decls.now cells.now }
    requires sized { (p : Pos) → IsSome (size layout.decls.now (name p text.now (selects all.now))) }
    ensures { (p : Pos) → IfOk result (λ slot. IsLocated layout.entry.decls.now net.old net.new cells.now slot
        (or_none (size layout.entry.decls.now (name p text.now (selects all.now))))
        (λ v. name_spots (flat_scopes layout.entry.decls.now) v text.now (selects all.now))) }
{
    let (decl, place) = found(names_over(layout, cells), text);
    match place {
        Place::Vector(at) => {
            let slot = slot_in(net, layout, cells, decl, Holder::Cell(at), all)?;
            Ok(slot)
        }
        Place::Words(first) => {
            let slot = word_slot(net, layout, cells, decl, first, all)?;
            Ok(slot)
        }
        Place::Memory(_) => unreachable!(),
    }
}

/// Adds the slots of a target behind others: its bits from the highest on. Indices are read over these cells.
#[cycle(locate)]
#[tactic(auto, using(vl_tree::specs::LvalFalls::parts_fall, wn_net::proofs::Laws::additions))]
pub fn locate(
    net: &mut Net,
    layout: Layout<'_>,
    cells: &[NodeId],
    target: &Lval,
    slots: &mut List<Slot>,
) -> Result<(), Memory>
    requires layout { IsLayout layout.decls.now layout.places.now }
    requires cells { AreCellsOf net.old layout.decls.now cells.now }
    requires sized { IsSizedTarget layout.decls.now target.now }
    requires slots { AllSlots net.old layout.decls.now slots.old }
    ensures { OnOk result (Locates layout.entry.decls.now net.old net.new cells.now slots.old slots.new
        (target_size layout.entry.decls.now target.now)
        (λ v. spots (flat_scopes layout.entry.decls.now) v target.now)) }
{
    match &target.kind {
        LvalKind::Name(text, all) => {
            let slot = slot_of(net, layout, cells, text, all.as_slice())?;
            slots.push(slot)?;
            Ok(())
        }
        LvalKind::Concat(parts) => Ok(locate_all(net, layout, cells, parts.as_slice(), slots)?),
    }
}

/// Adds those of several, one after the other (section 5.1.14).
#[cycle(locate)]
fn locate_all(
    net: &mut Net,
    layout: Layout<'_>,
    cells: &[NodeId],
    parts: &[Lval],
    slots: &mut List<Slot>,
) -> Result<(), Memory>
    requires layout { IsLayout layout.decls.now layout.places.now }
    requires cells { AreCellsOf net.old layout.decls.now cells.now }
    requires sized { AreSizedTargets layout.decls.now (lvals parts.now) }
    requires slots { AllSlots net.old layout.decls.now slots.old }
    ensures { OnOk result (Locates layout.entry.decls.now net.old net.new cells.now slots.old slots.new
        (all_target_sizes layout.entry.decls.now (lvals parts.now))
        (λ v. all_spots (flat_scopes layout.entry.decls.now) v (lvals parts.now))) }
{
    for part in parts {
        locate(net, layout, cells, part, slots)?;
    }
    Ok(())
}
