//! Words of memories at an index that may vary (IEEE 1364-2005, sections 4.9.3 and 5.2.2).
#![tactic(auto, using(wn_net::proofs::Laws::additions))]

ghost use Rattle.std.specs.Prelude.{◌≡◌, ◌+◌, ◌≤◌, true, IsSome, IfOk, int_le, length, slice_range};
ghost use Rattle.fv_bits.specs.Bits.{as_int};
ghost use Rattle.vl_size.specs.Size as spec;
ghost use Rattle.vl_size.specs.Table.{span};
ghost use Rattle.wn_net.specs.Value.{Given, word_at};
ghost use Rattle.wn_net.specs.Net.{IsNode, IsNodeOf, width_at, value_at};
ghost use Rattle.wn_net.specs.Given.{IsGiven};
ghost use Rattle.wn_net.specs.Changes.{AddsNodes};
ghost use Rattle.wn_mem.specs.Words.{AreWords, words_width, numbers_of};
ghost use Rattle.vl_lower_expr.specs.Bound.{bound, HasPlace, AreBound};
ghost use Rattle.vl_lower_expr.specs.Lowers.{Lowers};

use crate::bindings::Bindings;
use crate::place::Place;
use fv_text::Memory;
use vl_lower_nodes::address;
use vl_size::Decl;
use wn_mem::read_after;
use wn_net::{Net, NodeId};

/// How many words lie between the bounds.
fn word_count(left: i64, right: i64) -> usize
    requires left { spec.is_bound left ≡ true }
    requires right { spec.is_bound right ≡ true }
    ensures value { result ≡ span left right }
    ensures some { 1 ≤ result }
{
    (left - right).unsigned_abs() as usize + 1
}

/// Whether the right bound isn't below the left one.
fn ascends(left: i64, right: i64) -> bool
    ensures { result ≡ int_le left right }
{
    left <= right
}

/// The word at an address among so many cells.
fn word_among(
    net: &mut Net,
    cells: &[NodeId],
    at: usize,
    count: usize,
    address: NodeId,
) -> Result<NodeId, Memory>
    requires some { 1 ≤ count }
    requires within { at + count ≤ length cells.now }
    requires words { AreWords net.old (slice_range cells.now at (at + count)) }
    requires address { IsNode net.old address }
    ensures adds { AddsNodes net.old net.new }
    ensures there { IfOk result (IsNodeOf net.new (words_width net.old (slice_range cells.now at (at + count)))) }
    ensures value { IfOk result (λ id. (g : Given) → IsGiven net.old g → value_at net.new g id
        ≡ word_at (numbers_of net.old g (slice_range cells.now at (at + count))) (value_at net.old g address)) }
{
    let word = read_after(net, &cells[at..at + count], address)?;
    Ok(word)
}

/// The word of a memory at an index; 0 past its bounds.
pub(crate) fn word_at(
    net: &mut Net,
    names: Bindings<'_>,
    decl: &Decl,
    place: Place,
    index: NodeId,
    signed: bool,
) -> Result<NodeId, Memory>
    requires bound { AreBound net.old (bound names) }
    requires place { HasPlace (bound names) decl.now place }
    requires memory { IsSome decl.now.words }
    requires index { IsNode net.old index }
    ensures { IfOk result (Lowers net.old net.new (bound names.entry) decl.now.width
        (λ g v. spec.memory_word v decl.now decl.now.words
        (as_int (width_at net.old index) signed (value_at net.old g index)))) }
{
    let Some((left, right)) = decl.words else {
        unreachable!()
    };
    let address = address(net, index, signed, left, ascends(left, right))?;
    match place {
        Place::Words(at) => {
            let count = word_count(left, right);
            let word = word_among(net, names.cells, at, count, address)?;
            Ok(word)
        }
        Place::Memory(memory) => {
            let word = net.read(memory, address)?;
            Ok(word)
        }
        Place::Vector(_) => unreachable!(),
    }
}
