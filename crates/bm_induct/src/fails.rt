//! Nodes of one bit that tell whether others are other than 0.
#![tactic(auto, using(wn_net::proofs::Laws::additions, ck_history::proofs::Laws::truths))]

ghost use Rattle.std.specs.Prelude.{◌==◌, not, true, IfOk, ◌<◌};
ghost use Rattle.wn_net.specs.Net.{IsNode, AreNodes, value_at};
ghost use Rattle.wn_net.specs.Changes.{AddsNodes};
ghost use Rattle.ck_history.specs.Truths.{Tells};
ghost use Rattle.bm_induct.specs.Past.{all_other};

use ck_history::{both, is_number, turned};
use fv_text::{Memory, Word};
use wn_net::{Net, NodeId};

/// Whether a node is other than 0.
pub(crate) fn is_other(net: &mut Net, id: NodeId) -> Result<NodeId, Memory>
    requires { IsNode net.old id }
    ensures adds { AddsNodes net.old net.new }
    ensures tells { IfOk result (Tells net.old net.new (λ g. not (value_at net.old g id == 0))) }
{
    let _ = net.width(id);
    let zero = is_number(net, id, 0)?;
    turned(net, zero)
}

/// A node that always says yes.
pub(crate) fn yes(net: &mut Net) -> Result<NodeId, Memory>
    ensures adds { AddsNodes net.old net.new }
    ensures tells { IfOk result (Tells net.old net.new (λ g. true)) }
{
    let Some(one) = Word::new(1, 1) else {
        unreachable!()
    };
    let id = net.konst(one)?;
    Ok(id)
}

/// Whether all of these nodes are other than 0.
pub(crate) fn are_other(net: &mut Net, ids: &[NodeId]) -> Result<NodeId, Memory>
    requires { AreNodes net.old ids.now }
    ensures adds { AddsNodes net.old net.new }
    ensures tells { IfOk result (Tells net.old net.new (λ g. all_other (value_at net.old g) ids.now)) }
{
    let mut all = yes(net)?;
    for id in ids {
        let own = is_other(net, *id)?;
        all = both(net, all, own)?;
    }
    Ok(all)
}
