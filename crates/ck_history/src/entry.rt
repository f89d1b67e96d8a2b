#![tactic(auto, using(wn_net::proofs::Laws::additions))]

ghost use Rattle.std.specs.Prelude.{◌≡◌, IfOk};
ghost use Rattle.wn_net.specs.Value.{Given};
ghost use Rattle.wn_net.specs.Net.{IsNodeOf, value_at};
ghost use Rattle.wn_net.specs.Changes.{AddsNodes};
ghost use Rattle.ck_history.specs.Entries.{Entry, IsEntry, AreEntryNodes, entry_at};
ghost use Rattle.ck_history.specs.Entries as entries;

use fv_text::Memory;
use wn_net::{Net, NodeId};

/// What is kept of a channel in a cycle.
#[derive(Debug, Clone, Copy, PartialEq, Eq)]
pub struct EntryNodes {
    /// Whether something retires there; one bit.
    pub there: NodeId,
    /// What others are compared with; 64 bits.
    pub key: NodeId,
    /// 5 bits.
    pub small: NodeId,
    /// 32 bits.
    pub word: NodeId,
}

/// An entry as one node of 102 bits.
pub fn pack(net: &mut Net, entry: EntryNodes) -> Result<NodeId, Memory>
    requires { AreEntryNodes net.old entry }
    ensures adds { AddsNodes net.old net.new }
    ensures there { IfOk result (IsNodeOf net.new 102) }
    ensures value { IfOk result (λ id. (g : Given)
        → value_at net.new g id ≡ entries.packed (entry_at net.old g entry)) }
{
    let low = net.concat(entry.small, entry.word)?;
    let middle = net.concat(entry.key, low)?;
    let id = net.concat(entry.there, middle)?;
    Ok(id)
}

/// The entry that a node shows.
pub fn unpack(net: &mut Net, packed: NodeId) -> Result<EntryNodes, Memory>
    requires { IsNodeOf net.old 102 packed }
    ensures adds { AddsNodes net.old net.new }
    ensures nodes { IfOk result (AreEntryNodes net.new) }
    ensures value { IfOk result (λ made. (g : Given) (e : Entry) → IsEntry e
        → value_at net.old g packed ≡ entries.packed e → entry_at net.new g made ≡ e) }
{
    let there = net.slice(packed, 101, 1)?;
    let key = net.slice(packed, 37, 64)?;
    let small = net.slice(packed, 32, 5)?;
    let word = net.slice(packed, 0, 32)?;
    Ok(EntryNodes {
        there,
        key,
        small,
        word,
    })
}
