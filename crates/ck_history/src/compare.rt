//! Two entries, number by number.
#![tactic(auto, using(wn_net::proofs::Laws::additions, crate::proofs::Laws::truths))]

ghost use Rattle.std.specs.Prelude.{◌≡◌, ◌==◌, ◌*◌, ◌+◌, ◌<◌, ◌||◌, Bool, true, false, IfOk};
ghost use Rattle.fv_bits.specs.Bits.{part};
ghost use Rattle.wn_net.specs.Net.{IsNodeOf, value_at};
ghost use Rattle.wn_net.specs.Changes.{AddsNodes, Shows};
ghost use Rattle.ck_history.specs.Truths.{Tells, is_one};
ghost use Rattle.ck_history.specs.Entries.{AreEntryNodes, entry_at};
ghost use Rattle.ck_history.specs.Searches as searches;

use crate::entry::EntryNodes;
use crate::sought::{KeyTest, SmallTest, Sought, WordTest};
use crate::test::{both, either, is_below, is_next, is_number, is_same};
use fv_text::{Memory, Word};
use wn_net::{Net, NodeId};

/// The same answer in each cycle.
pub(crate) fn constant(net: &mut Net, answer: bool) -> Result<NodeId, Memory>
    ensures adds { AddsNodes net.old net.new }
    ensures tells { IfOk result (Tells net.old net.new (λ g. answer)) }
{
    let Some(word) = Word::new(1, u128::from(answer)) else {
        return Err(Memory);
    };
    let id = net.konst(word)?;
    Ok(id)
}

/// Whether a key stands so to the own one.
pub(crate) fn key_meets(
    net: &mut Net,
    test: KeyTest,
    own: NodeId,
    other: NodeId,
) -> Result<NodeId, Memory>
    requires own { IsNodeOf net.old 64 own }
    requires other { IsNodeOf net.old 64 other }
    ensures adds { AddsNodes net.old net.new }
    ensures tells { IfOk result (Tells net.old net.new
        (λ g. searches.key_meets test (value_at net.old g own) (value_at net.old g other))) }
{
    match test {
        KeyTest::Below => is_below(net, other, own),
        KeyTest::Above => is_below(net, own, other),
        KeyTest::Before => is_next(net, other, own),
        KeyTest::Behind => is_next(net, own, other),
        KeyTest::Same => is_same(net, other, own),
    }
}

/// Whether the number of 5 bits is one of an entry's two others, of which the second has 32 bits.
fn one_of_two(net: &mut Net, number: NodeId, small: NodeId, wide: NodeId) -> Result<NodeId, Memory>
    requires number { IsNodeOf net.old 5 number }
    requires small { IsNodeOf net.old 5 small }
    requires wide { IsNodeOf net.old 32 wide }
    ensures adds { AddsNodes net.old net.new }
    ensures tells { IfOk result (Tells net.old net.new
        (λ g. value_at net.old g small == value_at net.old g number
        || value_at net.old g wide == value_at net.old g number)) }
{
    let first = is_same(net, small, number)?;
    let same = net.zext(number, 32)?;
    let second = is_same(net, wide, same)?;
    let id = either(net, first, second)?;
    Ok(id)
}

/// Whether the number of 5 bits has this bit.
fn has_bit(net: &mut Net, number: NodeId, index: u32) -> Result<NodeId, Memory>
    requires number { IsNodeOf net.old 5 number }
    requires index { index < 4 }
    ensures adds { AddsNodes net.old net.new }
    ensures tells { IfOk result (Tells net.old net.new (λ g. part index 1 (value_at net.old g number) == 1)) }
{
    let bit = net.slice(number, index, 1)?;
    let id = is_number(net, bit, 1)?;
    Ok(id)
}

/// Whether the small number of an entry is such.
pub(crate) fn small_meets(
    net: &mut Net,
    test: SmallTest,
    own: EntryNodes,
    other: EntryNodes,
) -> Result<NodeId, Memory>
    requires test { searches.IsSmallTest test }
    requires own { AreEntryNodes net.old own }
    requires other { AreEntryNodes net.old other }
    ensures adds { AddsNodes net.old net.new }
    ensures tells { IfOk result (Tells net.old net.new
        (λ g. searches.small_meets test (entry_at net.old g own) (entry_at net.old g other))) }
{
    match test {
        SmallTest::Any => constant(net, true),
        SmallTest::Same => is_same(net, other.small, own.small),
        SmallTest::Zero => is_number(net, other.small, 0),
        SmallTest::OneOfTwo => one_of_two(net, own.small, other.small, other.word),
        SmallTest::Bit(index) => has_bit(net, other.small, index),
    }
}

/// Whether two words have the same byte of this index.
fn same_byte(net: &mut Net, a: NodeId, b: NodeId, index: u32) -> Result<NodeId, Memory>
    requires left { IsNodeOf net.old 32 a }
    requires right { IsNodeOf net.old 32 b }
    requires index { index < 4 }
    ensures adds { AddsNodes net.old net.new }
    ensures tells { IfOk result (Tells net.old net.new
        (λ g. part (8 * index) 8 (value_at net.old g a) == part (8 * index) 8 (value_at net.old g b))) }
{
    let first = net.slice(a, 8 * index, 8)?;
    let second = net.slice(b, 8 * index, 8)?;
    let id = is_same(net, first, second)?;
    Ok(id)
}

/// Whether an entry agrees with the own one.
pub(crate) fn agrees(
    net: &mut Net,
    test: WordTest,
    own: EntryNodes,
    other: EntryNodes,
) -> Result<NodeId, Memory>
    requires test { searches.IsWordTest test }
    requires own { AreEntryNodes net.old own }
    requires other { AreEntryNodes net.old other }
    ensures adds { AddsNodes net.old net.new }
    ensures tells { IfOk result (Tells net.old net.new
        (λ g. searches.agrees test (entry_at net.old g own) (entry_at net.old g other))) }
{
    match test {
        WordTest::Never => constant(net, false),
        WordTest::Whole => is_same(net, other.word, own.word),
        WordTest::Byte(index) => same_byte(net, other.word, own.word, index),
    }
}

/// Whether an entry is one that is sought.
pub(crate) fn is_sought(
    net: &mut Net,
    sought: Sought,
    own: EntryNodes,
    other: EntryNodes,
) -> Result<NodeId, Memory>
    requires sought { searches.IsSought sought }
    requires own { AreEntryNodes net.old own }
    requires other { AreEntryNodes net.old other }
    ensures adds { AddsNodes net.old net.new }
    ensures tells { IfOk result (Tells net.old net.new
        (λ g. searches.is_sought sought (entry_at net.old g own) (entry_at net.old g other))) }
{
    let key = key_meets(net, sought.key, own.key, other.key)?;
    let small = small_meets(net, sought.small, own, other)?;
    let numbers = both(net, key, small)?;
    let id = both(net, other.there, numbers)?;
    Ok(id)
}
