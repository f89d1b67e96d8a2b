//! Bits written to cells.
#![tactic(auto, using(wn_net::proofs::Laws::additions))]

ghost use Rattle.std.specs.Prelude.{◌≡◌, ◌+◌, ◌<◌, ◌≤◌, ◌==◌, ◌&&◌, nat_lt, ℕ, ℤ, IfOk, OnOk, length, slice_index};
ghost use Rattle.std.specs.Prelude.{if◌then◌else◌, IfSome};
ghost use Rattle.fv_bits.specs.Bits.{masked};
ghost use Rattle.wn_net.specs.Value.{Given};
ghost use Rattle.wn_net.specs.Net.{IsNode, IsNodeOf, IsWriteOf, AreNodesOf, width_at, value_at};
ghost use Rattle.wn_net.specs.Given.{IsGiven};
ghost use Rattle.wn_net.specs.Changes.{AddsNodes};
ghost use Rattle.vl_lower_assign.specs.Places.{IsAt, IsPlaceIn};
ghost use Rattle.vl_lower_assign.specs.Puts.{put_bits};
ghost use Rattle.vl_lower_assign.specs.declared.slot.Holder.TheVariants as of;
ghost use Rattle.vl_lower_assign.specs.Slots.{AreAlike, AreCells, IsPath, IsSlotIn, IsToldBy, IsWordIn, Stores, Writes};
ghost use Rattle.vl_lower_assign.specs.Slots.{is_taken};

use crate::path::{test_of, where_taken};
use crate::slot::{Holder, Slot};
use crate::spread::{BitPlace, put_at, spread_bits};
use crate::track::{MemoryWord, WordsWrite};
use fv_text::Memory;
use std::alloc::Global;
use vl_lower_nodes::number;
use wn_mem::write_all;
use wn_net::{MemWrite, Net, NodeId};

/// A cell after bits were written to it where the path is taken.
fn written_cell(
    net: &mut Net,
    path: Option<NodeId>,
    cell: NodeId,
    place: BitPlace,
    value: NodeId,
) -> Result<NodeId, Memory>
    requires path { IsPath net.old path }
    requires cell { IsNode net.old cell }
    requires place { IsPlaceIn net.old place }
    requires value { IsNode net.old value }
    ensures adds { AddsNodes net.old net.new }
    ensures there { IfOk result (IsNodeOf net.new (width_at net.old cell)) }
    ensures value { IfOk result (λ id. (g : Given) (p : ℤ) → IsGiven net.old g → IsAt net.old g place p
        → value_at net.new g id ≡ (if is_taken net.old g path
        then put_bits (width_at net.old value) (width_at net.old cell) p (value_at net.old g value)
        (value_at net.old g cell) else value_at net.old g cell)) }
{
    let put = put_at(net, cell, place, value)?;
    let node = where_taken(net, path, put, cell)?;
    Ok(node)
}

/// The words after bits were written to the one at an address where the path is taken. The answer: the write
/// that leaves them.
fn write_words(
    alloc: Global,
    net: &mut Net,
    path: Option<NodeId>,
    words: &mut [NodeId],
    address: NodeId,
    slot: Slot,
    value: NodeId,
) -> Result<MemWrite, Memory>
    requires path { IsPath net.old path }
    requires some { 1 ≤ length words.old }
    requires words { AreNodesOf net.old slot.width words.old }
    requires address { IsNode net.old address }
    requires some_bits { 1 ≤ slot.width }
    requires few_bits { slot.width ≤ 128 }
    requires place { IsPlaceIn net.old slot.place }
    requires value { IsNodeOf net.old slot.count value }
    ensures adds { OnOk result (AddsNodes net.old net.new) }
    ensures there { OnOk result (AreNodesOf net.new slot.width words.new) }
    ensures numbers { OnOk result ((g : Given) (p : ℤ) (k : ℕ) → IsGiven net.old g → IsAt net.old g slot.place p
        → k < length words.old → value_at net.new g (slice_index words.new k)
        ≡ (if is_taken net.old g path && (k == value_at net.old g address)
        then put_bits slot.count slot.width p (value_at net.old g value) (value_at net.old g (slice_index words.old k))
        else value_at net.old g (slice_index words.old k))) }
    ensures fits { IfOk result (IsWriteOf net.new slot.width) }
    ensures told { IfOk result (λ w. w.addr ≡ address) }
    ensures stores { IfOk result (λ w. (g : Given) (k : ℕ) → IsGiven net.old g → k < length words.old
        → value_at net.new g (slice_index words.new k)
        ≡ (if (value_at net.new g w.enable == 1) && (k == value_at net.new g w.addr)
        then masked slot.width (value_at net.new g w.mask) (value_at net.old g (slice_index words.old k))
        (value_at net.new g w.value)
        else value_at net.old g (slice_index words.old k))) }
{
    // Asked for what it says of the net: numbers are below 2 to their widths.
    let _count = net.width(value);
    let enable = test_of(net, path)?;
    let spread = spread_bits(net, slot.place, value, slot.width)?;
    let write = MemWrite {
        enable,
        addr: address,
        mask: spread.mask,
        value: spread.bits,
    };
    write_all(alloc, net, words, &write)?;
    Ok(write)
}

/// Puts words in the cells from the first on.
fn put_back(cells: &mut [NodeId], first: usize, words: &[NodeId])
    requires { first + length words.now ≤ length cells.old }
    ensures inside { (k : ℕ) → k < length words.now → slice_index cells.new (first + k) ≡ slice_index words.now k }
    ensures outside { (i : ℕ) → ((k : ℕ) → k < length words.now → i ≡ first + k → ⊥)
        → slice_index cells.new i ≡ slice_index cells.old i }
{
    for (k, word) in words.iter().enumerate() {
        cells[first + k] = *word;
    }
}

/// Writes the bits of a node to a slot where the path is taken (IEEE 1364-2005, sections 4.2.1 and 9.2); of a word past
/// the last one and of bits past the cell they are dropped. The answer: the write that did it, where the slot is one of several words.
pub(crate) fn write_slot(
    alloc: Global,
    net: &mut Net,
    path: Option<NodeId>,
    cells: &mut [NodeId],
    slot: Slot,
    value: NodeId,
) -> Result<Option<WordsWrite>, Memory>
    requires path { IsPath net.old path }
    requires cells { AreCells net.old cells.old }
    requires slot { IsSlotIn net.old cells.old slot }
    requires value { IsNodeOf net.old slot.count value }
    ensures writes { OnOk result (Writes net.old net.new cells.old cells.new path slot value) }
    ensures stores { IfOk result (λ made. IfSome made
        (Stores net.old net.new cells.old cells.new slot.width slot.holder)) }
    ensures told { IfOk result (λ made. IfSome made (IsToldBy slot.holder)) }
{
    match slot.holder {
        Holder::Cell(at) => {
            let node = written_cell(net, path, cells[at], slot.place, value)?;
            cells[at] = node;
            Ok(None)
        }
        Holder::Word {
            first,
            count,
            address,
        } => {
            let mut words = Vec::from_slice(alloc, &cells[first..first + count])?;
            let write = write_words(alloc, net, path, words.as_mut_slice(), address, slot, value)?;
            put_back(cells, first, words.as_slice());
            Ok(Some(WordsWrite {
                first,
                count,
                write,
            }))
        }
        Holder::Nowhere => Ok(None),
    }
}

/// Writes the bits of a node to a slot where the path is taken, whose cell is a word of a memory: no other cell is
/// written. The answer: the write to the memory that did it.
pub(crate) fn write_word(
    alloc: Global,
    net: &mut Net,
    path: Option<NodeId>,
    cells: &mut [NodeId],
    slot: Slot,
    word: MemoryWord,
    value: NodeId,
) -> Result<Option<WordsWrite>, Memory>
    requires path { IsPath net.old path }
    requires cells { AreCells net.old cells.old }
    requires slot { IsSlotIn net.old cells.old slot }
    requires holder { slot.holder ≡ of.Cell (word.first + word.address) }
    requires word { IsWordIn net.old cells.old slot.width word }
    requires value { IsNodeOf net.old slot.count value }
    ensures writes { OnOk result (Writes net.old net.new cells.old cells.new path slot value) }
    ensures stores { IfOk result (λ made. IfSome made
        (Stores net.old net.new cells.old cells.new slot.width slot.holder)) }
{
    // The cell is written as the one word of a memory, so that the write is told by which it is written.
    let zero = number(net, 1, 0)?;
    let addr = number(net, 32, u128::from(word.address))?;
    let alone = Slot {
        holder: Holder::Word {
            first: word.first + word.address as usize,
            count: 1,
            address: zero,
        },
        ..slot
    };
    match write_slot(alloc, net, path, cells, alone, value)? {
        Some(made) => Ok(Some(WordsWrite {
            first: word.first,
            count: word.count,
            write: MemWrite { addr, ..made.write },
        })),
        None => Ok(None),
    }
}
