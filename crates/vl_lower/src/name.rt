//! Entries of one name.

ghost use Rattle.std.specs.Prelude.{◌≡◌, ◌+◌, ◌++◌, ◌≤◌, ◌<◌, ◌^◌, int_le, length, true, IfOk, OnOk, Some};
ghost use Rattle.vl_flow_cells.specs.Places.{index_at};
ghost use Rattle.vl_size.specs.Size.{is_bound};
ghost use Rattle.vl_size.specs.Table.{span, word_name};
ghost use Rattle.vl_mean.specs.Cells.{cells, words_from};
ghost use Rattle.vl_mean.specs.FlatLaw.{IsKept};
ghost use Rattle.vl_mean.specs.Scopes.{is_clock_class};
ghost use Rattle.vl_lower_cell_laws.specs.Entries as spec;
ghost use Rattle.vl_lower.specs.Listed.{is_first, name_entries, next_memory};

use fv_text::{List, Memory, Text};
use itoa::Buffer;
use std::alloc::Global;
use vl_flow_cells::cell_count;
use vl_size::{Class, Decl};
use wn_net::{NetName, NodeId, Place};

pub(crate) fn is_clock(decl: &Decl) -> bool
    ensures { result ≡ is_clock_class decl.now.class }
{
    match decl.class {
        Class::Clock => true,
        _ => false,
    }
}

/// The name of a memory's word.
fn word_text(alloc: Global, memory: &Text, index: i64) -> Result<Text, Memory>
    ensures { IfOk result (λ text. text ≡ word_name memory.now index) }
{
    let mut digits = Buffer::new();
    let mut bytes = Vec::from_slice(alloc, memory.bytes())?;
    bytes.extend_from_slice(b"[")?;
    bytes.extend_from_slice(digits.format(index).as_bytes())?;
    bytes.extend_from_slice(b"]")?;
    Ok(Text::from_vec(bytes))
}

/// A vector, or a word that stands by itself, at a node.
fn node_entry(decl: &Decl, text: Text, node: NodeId) -> NetName
    ensures { result ≡ spec.node_entry decl.now text node }
{
    NetName {
        text,
        width: decl.width,
        place: Place::Node(node),
        output: decl.output,
        words: None,
    }
}

/// A memory by its number.
fn memory_entry(alloc: Global, decl: &Decl, memory: u32) -> Result<NetName, Memory>
    ensures { IfOk result (λ entry. entry ≡ spec.memory_entry decl.now memory) }
{
    Ok(NetName {
        text: decl.name.copied(alloc)?,
        width: decl.width,
        place: Place::Mem(memory),
        output: decl.output,
        words: decl.words,
    })
}

/// The index so many words behind the left bound.
fn index_at(left: i64, right: i64, word: usize) -> i64
    requires bound { is_bound left ≡ true }
    requires few { word ≤ 2 ^ 33 }
    ensures { result ≡ index_at (int_le left right) left word }
{
    let step = word as i64;
    if left <= right {
        left + step
    } else {
        left - step
    }
}

/// An entry for each word of a memory.
fn put_words(
    alloc: Global,
    list: &mut List<NetName>,
    decl: &Decl,
    left: i64,
    right: i64,
    nodes: &[NodeId],
    first: usize,
) -> Result<(), Memory>
    requires kept { IsKept decl.now }
    requires words { decl.now.words ≡ Some (left, right) }
    requires there { first + length (cells decl.now) ≤ length nodes.now }
    ensures { OnOk result (list.new ≡ list.old ++ spec.node_entries decl.now nodes.now first (cells decl.now)) }
{
    let count = cell_count(decl) as usize;
    for word in 0..count {
        let text = word_text(alloc, &decl.name, index_at(left, right, word))?;
        list.push(node_entry(decl, text, nodes[first + word]))?;
    }
    Ok(())
}

/// Entries of the cells of a vector or a memory.
fn put_cells(
    alloc: Global,
    list: &mut List<NetName>,
    decl: &Decl,
    nodes: &[NodeId],
    first: usize,
) -> Result<(), Memory>
    requires kept { IsKept decl.now }
    requires there { first + length (cells decl.now) ≤ length nodes.now }
    ensures { OnOk result (list.new ≡ list.old ++ spec.node_entries decl.now nodes.now first (cells decl.now)) }
{
    match decl.words {
        None => {
            let text = decl.name.copied(alloc)?;
            list.push(node_entry(decl, text, nodes[first]))?;
            Ok(())
        }
        Some((left, right)) => Ok(put_words(alloc, list, decl, left, right, nodes, first)?),
    }
}

/// Puts the entries of a name behind others, where its cells stand from a number on and so many memories before it. The
/// answer is how many memories there are then.
pub(crate) fn put_name(
    alloc: Global,
    list: &mut List<NetName>,
    decl: &Decl,
    nodes: &[NodeId],
    first: usize,
    firsts: &[u32],
    memory: u32,
) -> Result<u32, Memory>
    requires kept { IsKept decl.now }
    requires there { first + length (cells decl.now) ≤ length nodes.now }
    requires few { length firsts.now < 2 ^ 32 }
    ensures list { OnOk result (list.new ≡ list.old ++ name_entries firsts.now decl.now nodes.now first memory) }
    ensures next { IfOk result (λ next. next ≡ next_memory firsts.now decl.now first memory) }
{
    if is_clock(decl) {
        return Ok(memory);
    }
    if is_first(firsts, memory, first) {
        list.push(memory_entry(alloc, decl, memory)?)?;
        return Ok(memory + 1);
    }
    put_cells(alloc, list, decl, nodes, first)?;
    Ok(memory)
}

/// Whether the memory with this number has this first cell.
fn is_first(firsts: &[u32], memory: u32, first: usize) -> bool
    ensures { result ≡ is_first firsts.now memory first }
{
    match firsts.get(memory as usize) {
        None => false,
        Some(cell) => *cell as usize == first,
    }
}
