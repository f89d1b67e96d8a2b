//! A part of a net that grows by the nodes on which one more node rests.
ghost use Rattle.std.specs.Prelude.{◌≡◌, ℕ, ◌++◌, ◌∷◌, [], length, IfOk};
ghost use Rattle.wn_net.specs.Net.{IsNode, AreNodes};
ghost use Rattle.wn_opt.specs.Cone.{IsCone, KeepsRuns, StandsBehind};
ghost use Rattle.wn_opt.specs.Needed.{IsIn};
ghost use Rattle.wn_opt.specs.Parts.{AreFresh};

use crate::copy::copy_nodes;
use crate::join::{join_mems, join_regs};
use crate::kept::whole;
use crate::marks::needed;
use fv_text::{List, Memory};
use std::alloc::Global;
use wn_net::{Net, NodeId};

/// Some nodes, and one more behind them.
fn with_root(alloc: Global, first: &[NodeId], root: NodeId) -> Result<Vec<NodeId>, Memory>
    ensures { IfOk result (λ made. made.items ≡ first.now ++ root ∷ []) }
{
    let mut roots = Vec::new(alloc);
    roots.extend_from_slice(first)?;
    roots.push(root)?;
    Ok(roots)
}

/// The marks that weren't set before.
fn fresh_marks(alloc: Global, marks: &[bool], before: &[bool]) -> Result<Vec<bool>, Memory>
    requires { length before.now ≡ length marks.now }
    ensures { IfOk result (λ fresh. AreFresh marks.now before.now fresh.items (length marks.now)) }
{
    let mut fresh = Vec::with_capacity(alloc, marks.len())?;
    for (index, mark) in marks.iter().enumerate() {
        let old = before[index];
        fresh.push(*mark && !old)?;
    }
    Ok(fresh)
}

/// What `cone` answered for some nodes, grown to what it answers for these and one more: the nodes of the part keep their
/// numbers, and those on which the one more rests, as far as they aren't there yet, stand behind them.
///
/// All assumptions have to be among the nodes of the part, so that none comes in later. Time and memory are linear in
/// the net.
pub fn cone_behind(
    alloc: Global,
    net: &Net,
    first: &[NodeId],
    part: Net,
    places: List<Option<NodeId>>,
    root: NodeId,
) -> Result<(Net, List<Option<NodeId>>), Memory>
    requires first { AreNodes net.now first.now }
    requires root { IsNode net.now root }
    requires assumed { (id : ℕ) → IsIn net.now.assumes id → IsIn first.now id }
    requires cone { IsCone net.now first.now part places }
    ensures cone { IfOk result (λ r. IsCone net.now (first.now ++ root ∷ []) r.0 r.1) }
    ensures runs { IfOk result (λ r. KeepsRuns net.now (first.now ++ root ∷ []) r.0 r.1) }
    ensures behind { IfOk result (λ r. StandsBehind part places r.0 r.1) }
{
    whole(net);
    whole(&part);
    let before = needed(alloc, net, first)?;
    let roots = with_root(alloc, first, root)?;
    let marks = needed(alloc, net, roots.as_slice())?;
    let fresh = fresh_marks(alloc, marks.mems.as_slice(), before.mems.as_slice())?;
    let mut grown = part;
    let mut table = places.into_vec();
    let nodes = marks.nodes.as_slice();
    copy_nodes(&mut grown, net, nodes, &mut table)?;
    let now = table.as_slice();
    join_regs(&mut grown, net, nodes, marks.regs.as_slice(), now);
    join_mems(&mut grown, net, nodes, fresh.as_slice(), now)?;
    whole(&grown);
    Ok((grown, List::from_vec(table)))
}
