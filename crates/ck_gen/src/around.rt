#![tactic(auto, using(wn_net::proofs::Laws::additions, ck_history::proofs::Laws::truths))]

ghost use Rattle.std.specs.Prelude.{◌≡◌, ◌-◌, ◌<◌, ◌^◌, ◌==◌, ◌||◌, not, List, length, IfOk};
ghost use Rattle.wn_net.specs.Value.{Given};
ghost use Rattle.wn_net.specs.Net.{IsNodeOf, AreNodesOf, value_at};
ghost use Rattle.wn_net.specs.Given.{IsGiven};
ghost use Rattle.wn_net.specs.Changes.{AddsNodes};
ghost use Rattle.ck_history.specs.Truths.{Tells, is_one};
ghost use Rattle.ck_history.specs.Entries.{Entry, AreEntryNodes, Show, entry_at};
ghost use Rattle.ck_gen.specs.Kept as kept;
ghost use Rattle.ck_history.specs.Searches as searches;
ghost use Rattle.ck_gen.specs.Around.{order_is_own, is_followed_so, LooksAround, holds_around};

use ck_cfg::CheckKind;
use ck_history::{
    EntryNodes, KeyTest, SmallTest, Sought, WordTest, both, either, first_agrees, is_number, turned,
};
use fv_text::Memory;
use wn_net::{Net, NodeId};

/// Whether none of the others has the entry's key.
fn has_own_order(
    net: &mut Net,
    own: EntryNodes,
    front: &[NodeId],
    back: &[NodeId],
) -> Result<NodeId, Memory>
    requires own { AreEntryNodes net.old own }
    requires front { AreNodesOf net.old 102 front.now }
    requires back { AreNodesOf net.old 102 back.now }
    ensures adds { AddsNodes net.old net.new }
    ensures there { IfOk result (IsNodeOf net.new 1) }
    ensures tells { IfOk result (λ id. (g : Given) (es fs : List Entry) → IsGiven net.old g
        → Show net.old g front.now es → Show net.old g back.now fs
        → is_one net.new g id ≡ order_is_own (entry_at net.old g own) es fs) }
{
    let sought = Sought {
        key: KeyTest::Same,
        small: SmallTest::Any,
        word: WordTest::Never,
    };
    let behind = first_agrees(net, sought, own, front)?;
    let before = first_agrees(net, sought, own, back)?;
    let id = both(net, behind, before)?;
    Ok(id)
}

/// Whether nothing has to come behind an entry: its small number isn't 0, or its key is the last one.
fn is_last(net: &mut Net, own: EntryNodes) -> Result<NodeId, Memory>
    requires { AreEntryNodes net.old own }
    ensures adds { AddsNodes net.old net.new }
    ensures tells { IfOk result (Tells net.old net.new (λ g. not (value_at net.old g own.small == 0)
        || (value_at net.old g own.key == 2 ^ 64 - 1))) }
{
    let zero = is_number(net, own.small, 0)?;
    let halts = turned(net, zero)?;
    let last = is_number(net, own.key, u128::from(u64::MAX))?;
    let id = either(net, halts, last)?;
    Ok(id)
}

/// Whether one of all has the key behind the entry's.
fn has_next(net: &mut Net, own: EntryNodes, words: &[NodeId]) -> Result<NodeId, Memory>
    requires own { AreEntryNodes net.old own }
    requires words { AreNodesOf net.old 102 words.now }
    ensures adds { AddsNodes net.old net.new }
    ensures there { IfOk result (IsNodeOf net.new 1) }
    ensures tells { IfOk result (λ id. (g : Given) (es : List Entry) → IsGiven net.old g → Show net.old g words.now es
        → is_one net.new g id ≡ not (searches.first_agrees kept.sought_next (entry_at net.old g own) es)) }
{
    let sought = Sought {
        key: KeyTest::Behind,
        small: SmallTest::Any,
        word: WordTest::Never,
    };
    let none = first_agrees(net, sought, own, words)?;
    let id = turned(net, none)?;
    Ok(id)
}

/// Whether an entry is followed as it has to be.
fn is_followed(net: &mut Net, own: EntryNodes, words: &[NodeId]) -> Result<NodeId, Memory>
    requires own { AreEntryNodes net.old own }
    requires words { AreNodesOf net.old 102 words.now }
    ensures adds { AddsNodes net.old net.new }
    ensures there { IfOk result (IsNodeOf net.new 1) }
    ensures tells { IfOk result (λ id. (g : Given) (es : List Entry) → IsGiven net.old g → Show net.old g words.now es
        → is_one net.new g id ≡ is_followed_so (entry_at net.old g own) es) }
{
    let last = is_last(net, own)?;
    let next = has_next(net, own, words)?;
    let id = either(net, last, next)?;
    Ok(id)
}

/// Whether the retirement whose entry this is, at this place of the words, holds what a check of the kind asks of it
/// and all others.
pub fn look_around(
    net: &mut Net,
    kind: CheckKind,
    own: EntryNodes,
    place: usize,
    words: &[NodeId],
) -> Result<NodeId, Memory>
    requires kind { LooksAround kind }
    requires own { AreEntryNodes net.old own }
    requires place { place < length words.now }
    requires words { AreNodesOf net.old 102 words.now }
    ensures adds { AddsNodes net.old net.new }
    ensures there { IfOk result (IsNodeOf net.new 1) }
    ensures tells { IfOk result (λ id. (g : Given) (es : List Entry) → IsGiven net.old g → Show net.old g words.now es
        → is_one net.new g id ≡ holds_around kind place (entry_at net.old g own) es) }
{
    match kind {
        CheckKind::Unique => {
            let (front, _) = words.split_at(place);
            let (_, back) = words.split_at(place + 1);
            let id = has_own_order(net, own, front, back)?;
            Ok(id)
        }
        _ => is_followed(net, own, words),
    }
}
