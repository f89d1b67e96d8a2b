#![tactic(auto, using(wn_net::proofs::Laws::additions, crate::proofs::Laws::truths))]

ghost use Rattle.std.specs.Prelude.{◌≡◌, ◌==◌, List, if◌then◌else◌, IfOk};
ghost use Rattle.std.specs.List.{AllByRecursion};
ghost use Rattle.wn_net.specs.Value.{Given};
ghost use Rattle.wn_net.specs.Net.{IsNodeOf, AreNodesOf, value_at};
ghost use Rattle.wn_net.specs.Given.{IsGiven};
ghost use Rattle.wn_net.specs.Changes.{AddsNodes};
ghost use Rattle.ck_history.specs.Truths.{is_one};
ghost use Rattle.ck_history.specs.Entries.{Entry, IsEntry, AreEntryNodes, Show, entry_at, packed};
ghost use Rattle.ck_history.specs.Searches as searches;

use crate::compare::{agrees, constant, is_sought};
use crate::entry::{EntryNodes, unpack};
use crate::sought::Sought;
use fv_text::Memory;
use wn_net::{Net, NodeId};

/// Whether the entry agrees, where it is sought, and else what the entries before it say.
fn agrees_or(
    net: &mut Net,
    sought: Sought,
    own: EntryNodes,
    word: NodeId,
    rest: NodeId,
) -> Result<NodeId, Memory>
    requires sought { searches.IsSought sought }
    requires own { AreEntryNodes net.old own }
    requires word { IsNodeOf net.old 102 word }
    requires rest { IsNodeOf net.old 1 rest }
    ensures adds { AddsNodes net.old net.new }
    ensures there { IfOk result (IsNodeOf net.new 1) }
    ensures tells { IfOk result (λ id. (g : Given) (e : Entry) → IsGiven net.old g → IsEntry e
        → value_at net.old g word ≡ packed e
        → is_one net.new g id ≡ (if searches.is_sought sought (entry_at net.old g own) e
        then searches.agrees sought.word (entry_at net.old g own) e else is_one net.old g rest)) }
{
    let entry = unpack(net, word)?;
    let found = is_sought(net, sought, own, entry)?;
    let answer = agrees(net, sought.word, own, entry)?;
    let id = net.mux(found, answer, rest)?;
    Ok(id)
}

/// Whether the first of the entries that is sought agrees with the own one, where there is one.
pub fn first_agrees(
    net: &mut Net,
    sought: Sought,
    own: EntryNodes,
    words: &[NodeId],
) -> Result<NodeId, Memory>
    requires sought { searches.IsSought sought }
    requires own { AreEntryNodes net.old own }
    requires words { AreNodesOf net.old 102 words.now }
    ensures adds { AddsNodes net.old net.new }
    ensures there { IfOk result (IsNodeOf net.new 1) }
    ensures tells { IfOk result (λ id. (g : Given) (es : List Entry) → IsGiven net.old g
        → Show net.old g words.now es
        → is_one net.new g id ≡ searches.first_agrees sought (entry_at net.old g own) es) }
{
    let mut id = constant(net, true)?;
    let mut place = words.len();
    while place > 0 {
        place -= 1;
        id = agrees_or(net, sought, own, words[place], id)?;
    }
    Ok(id)
}
