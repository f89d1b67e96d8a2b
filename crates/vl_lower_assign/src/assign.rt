//! Bits of names assigned in a frame.
#![tactic(auto, using(wn_net::proofs::Laws::additions))]

ghost use Rattle.std.specs.Prelude.{◌≡◌, ◌∷◌, [], ◌++◌, ◌+◌, ◌≤◌, IfOk, OnOk, IfSome, length, slice_index};
ghost use Rattle.vl_tree.specs.declared.stmt.AssignKind.TheVariants as a;
ghost use Rattle.wn_net.specs.Net.{IsNodeOf, value_at};
ghost use Rattle.vl_lower_assign.specs.declared.slot.Holder.TheVariants as of;
ghost use Rattle.vl_lower_assign.specs.Slots.{AreCells, IsPath, IsSlotIn, Stores, Writes};
ghost use Rattle.vl_lower_assign.specs.Frames.{AllSlots, Assigns, IsFrame, IsSlotFor, cells_of, slots_width};
ghost use Rattle.vl_lower_assign.specs.Logs.{noted, noted_of, IsWithin};
ghost use Rattle.vl_lower_assign.specs.Tracks.{AreTracks};

use crate::change::Change;
use crate::frame::Frame;
use crate::slot::{Holder, Slot};
use crate::track::{Track, WordsWrite};
use crate::tracking::{keep_write, word_of};
use crate::write::{write_slot, write_word};
use fv_text::Memory;
use std::alloc::Global;
use vl_size::Decls;
use vl_tree::AssignKind;
use wn_net::{Net, NodeId};

/// Keeps in the log what stands in so many cells now.
fn note(frame: &mut Frame, first: usize, count: usize) -> Result<(), Memory>
    requires { first + count ≤ length frame.old.now.items }
    ensures now { OnOk result (frame.new.now.items ≡ frame.old.now.items) }
    ensures next { OnOk result (frame.new.next.items ≡ frame.old.next.items) }
    ensures assumed { OnOk result (frame.new.assumed ≡ frame.old.assumed) }
    ensures tracks { OnOk result (frame.new.tracks.items ≡ frame.old.tracks.items) }
    ensures log { OnOk result (frame.new.log ≡ frame.old.log ++ noted first count frame.old.now.items) }
{
    for cell in first..first + count {
        let node = frame.now[cell];
        frame.log.push(Change { cell, node })?;
    }
    Ok(())
}

/// Keeps in the log what stands now in the cells that a slot may be of.
fn note_slot(frame: &mut Frame, holder: Holder) -> Result<(), Memory>
    requires { IsWithin (length frame.old.now.items) holder }
    ensures now { OnOk result (frame.new.now.items ≡ frame.old.now.items) }
    ensures next { OnOk result (frame.new.next.items ≡ frame.old.next.items) }
    ensures assumed { OnOk result (frame.new.assumed ≡ frame.old.assumed) }
    ensures tracks { OnOk result (frame.new.tracks.items ≡ frame.old.tracks.items) }
    ensures log { OnOk result (frame.new.log ≡ frame.old.log ++ noted_of holder frame.old.now.items) }
{
    match holder {
        Holder::Cell(at) => Ok(note(frame, at, 1)?),
        Holder::Word {
            first,
            count,
            address: _,
        } => Ok(note(frame, first, count)?),
        Holder::Nowhere => Ok(()),
    }
}

/// The cell of a slot, where the same node stands in it now and in the next cycle.
fn shared_cell(frame: &Frame, holder: Holder) -> Option<usize>
    requires now { IsWithin (length frame.now.now.items) holder }
    requires next { length frame.now.next.items ≡ length frame.now.now.items }
    ensures { IfSome result (λ at. (holder ≡ of.Cell at)
        × (slice_index frame.entry.now.next.items at
        ≡ slice_index frame.entry.now.now.items at)) }
{
    match holder {
        Holder::Cell(at) => {
            if frame.now[at] == frame.next[at] {
                return Some(at);
            }
            None
        }
        _ => None,
    }
}

/// Writes a number to a slot of cells. The answer: the write that did it, where the slot is one of several words.
fn write_cells(
    alloc: Global,
    net: &mut Net,
    path: Option<NodeId>,
    cells: &mut Vec<NodeId>,
    slot: Slot,
    value: NodeId,
) -> Result<Option<WordsWrite>, Memory>
    requires path { IsPath net.old path }
    requires cells { AreCells net.old cells.old.items }
    requires slot { IsSlotIn net.old cells.old.items slot }
    requires value { IsNodeOf net.old slot.count value }
    ensures writes { OnOk result (Writes net.old net.new cells.old.items cells.new.items path slot value) }
    ensures stores { IfOk result (λ made. IfSome made
        (Stores net.old net.new cells.old.items cells.new.items slot.width slot.holder)) }
{
    let made = write_slot(alloc, net, path, cells.as_mut_slice(), slot, value)?;
    Ok(made)
}

/// Writes a number to a slot of cells beside which memories' writes are kept. The answer: the write that did it, where
/// the slot is one of several words or a word of a memory whose writes are known.
fn write_kept(
    alloc: Global,
    net: &mut Net,
    path: Option<NodeId>,
    tracks: &[Track],
    cells: &mut Vec<NodeId>,
    slot: Slot,
    value: NodeId,
) -> Result<Option<WordsWrite>, Memory>
    requires path { IsPath net.old path }
    requires tracks { AreTracks net.old cells.old.items tracks.now }
    requires cells { AreCells net.old cells.old.items }
    requires slot { IsSlotIn net.old cells.old.items slot }
    requires value { IsNodeOf net.old slot.count value }
    ensures writes { OnOk result (Writes net.old net.new cells.old.items cells.new.items path slot value) }
    ensures stores { IfOk result (λ made. IfSome made
        (Stores net.old net.new cells.old.items cells.new.items slot.width slot.holder)) }
{
    if let Holder::Cell(at) = slot.holder {
        if let Some(word) = word_of(net, tracks, cells.as_slice(), at, slot.width) {
            let made = write_word(alloc, net, path, cells.as_mut_slice(), slot, word, value)?;
            return Ok(made);
        }
    }
    let made = write_cells(alloc, net, path, cells, slot, value)?;
    Ok(made)
}

/// Writes a number to a slot, now and for the next cycle.
fn write_both(
    alloc: Global,
    net: &mut Net,
    decls: &Decls,
    frame: &mut Frame,
    path: Option<NodeId>,
    slot: Slot,
    value: NodeId,
) -> Result<(), Memory>
    requires frame { IsFrame net.old decls.now (cells_of frame.old) }
    requires path { IsPath net.old path }
    requires slot { IsSlotFor net.old decls.now slot }
    requires value { IsNodeOf net.old slot.count value }
    ensures { OnOk result (Assigns net.old net.new decls.now (cells_of frame.old) (cells_of frame.new) path
        a.Blocking (slot ∷ []) (λ g. value_at net.old g value)) }
{
    note_slot(frame, slot.holder)?;
    let cells = frame.next.len();
    keep_write(&mut frame.tracks, cells, slot.holder, None)?;
    let shared = shared_cell(frame, slot.holder);
    write_cells(alloc, net, path, &mut frame.now, slot, value)?;
    match shared {
        Some(at) => {
            frame.next[at] = frame.now[at];
            Ok(())
        }
        None => {
            write_cells(alloc, net, path, &mut frame.next, slot, value)?;
            Ok(())
        }
    }
}

/// Writes a number to a slot for the next cycle.
fn write_next(
    alloc: Global,
    net: &mut Net,
    decls: &Decls,
    frame: &mut Frame,
    path: Option<NodeId>,
    slot: Slot,
    value: NodeId,
) -> Result<(), Memory>
    requires frame { IsFrame net.old decls.now (cells_of frame.old) }
    requires path { IsPath net.old path }
    requires slot { IsSlotFor net.old decls.now slot }
    requires value { IsNodeOf net.old slot.count value }
    ensures { OnOk result (Assigns net.old net.new decls.now (cells_of frame.old) (cells_of frame.new) path
        a.Nonblocking (slot ∷ []) (λ g. value_at net.old g value)) }
{
    let made = write_kept(
        alloc,
        net,
        path,
        frame.tracks.as_slice(),
        &mut frame.next,
        slot,
        value,
    )?;
    let cells = frame.next.len();
    Ok(keep_write(&mut frame.tracks, cells, slot.holder, made)?)
}

/// Writes a number to a slot.
fn write_one(
    alloc: Global,
    net: &mut Net,
    decls: &Decls,
    frame: &mut Frame,
    path: Option<NodeId>,
    kind: AssignKind,
    slot: Slot,
    value: NodeId,
) -> Result<(), Memory>
    requires frame { IsFrame net.old decls.now (cells_of frame.old) }
    requires path { IsPath net.old path }
    requires slot { IsSlotFor net.old decls.now slot }
    requires value { IsNodeOf net.old slot.count value }
    ensures { OnOk result (Assigns net.old net.new decls.now (cells_of frame.old) (cells_of frame.new) path
        kind (slot ∷ []) (λ g. value_at net.old g value)) }
{
    match kind {
        AssignKind::Blocking => Ok(write_both(alloc, net, decls, frame, path, slot, value)?),
        AssignKind::Nonblocking => Ok(write_next(alloc, net, decls, frame, path, slot, value)?),
    }
}

/// Writes the bits of a number to slots, the highest to the first slot (IEEE 1364-2005, section 5.1.14).
pub fn assign_slots(
    alloc: Global,
    net: &mut Net,
    decls: &Decls,
    frame: &mut Frame,
    path: Option<NodeId>,
    kind: AssignKind,
    slots: &[Slot],
    value: NodeId,
) -> Result<(), Memory>
    requires frame { IsFrame net.old decls.now (cells_of frame.old) }
    requires path { IsPath net.old path }
    requires slots { AllSlots net.old decls.now slots.now }
    requires value { IsNodeOf net.old (slots_width slots.now) value }
    ensures { OnOk result (Assigns net.old net.new decls.now (cells_of frame.old) (cells_of frame.new) path
        kind slots.now (λ g. value_at net.old g value)) }
{
    let mut rest = net.width(value);
    for slot in slots {
        rest -= slot.count;
        let part = net.slice(value, rest, slot.count)?;
        write_one(alloc, net, decls, frame, path, kind, *slot, part)?;
    }
    Ok(())
}
