//! Paths through statements: a node of one bit that is 1 where the path is taken, or none where it always is.
#![tactic(auto, using(wn_net::proofs::Laws::additions))]

ghost use Rattle.std.specs.Prelude.{◌≡◌, ◌==◌, ◌&&◌, not, Some, IfOk, if◌then◌else◌};
ghost use Rattle.wn_net.specs.Value.{Given};
ghost use Rattle.wn_net.specs.Net.{IsNode, IsNodeOf, width_at, value_at};
ghost use Rattle.wn_net.specs.Given.{IsGiven};
ghost use Rattle.wn_net.specs.Changes.{AddsNodes, Shows};
ghost use Rattle.vl_lower_assign.specs.Slots.{IsPath, is_taken};

use fv_text::Memory;
use vl_lower_nodes::number;
use wn_net::{Net, NodeId};

/// One node where the path is taken, and else another.
pub(crate) fn where_taken(
    net: &mut Net,
    path: Option<NodeId>,
    taken: NodeId,
    other: NodeId,
) -> Result<NodeId, Memory>
    requires path { IsPath net.old path }
    requires taken { IsNode net.old taken }
    requires other { IsNodeOf net.old (width_at net.old taken) other }
    ensures adds { AddsNodes net.old net.new }
    ensures shows { IfOk result (Shows net.old net.new (width_at net.old taken)
        (λ g. if is_taken net.old g path then value_at net.old g taken else value_at net.old g other)) }
{
    match path {
        None => Ok(taken),
        Some(test) => {
            let node = net.mux(test, taken, other)?;
            Ok(node)
        }
    }
}

/// A node of one bit that is 1 where the path is taken.
pub(crate) fn test_of(net: &mut Net, path: Option<NodeId>) -> Result<NodeId, Memory>
    requires { IsPath net.old path }
    ensures adds { AddsNodes net.old net.new }
    ensures there { IfOk result (IsNodeOf net.new 1) }
    ensures value { IfOk result (λ id. (g : Given) → IsGiven net.old g
        → is_taken net.new g (Some id) ≡ is_taken net.old g path) }
{
    match path {
        None => {
            let one = number(net, 1, 1)?;
            Ok(one)
        }
        Some(test) => Ok(test),
    }
}

/// The path that goes on where a test is 1.
pub fn path_where(net: &mut Net, path: Option<NodeId>, test: NodeId) -> Result<NodeId, Memory>
    requires path { IsPath net.old path }
    requires test { IsNodeOf net.old 1 test }
    ensures adds { AddsNodes net.old net.new }
    ensures there { IfOk result (IsNodeOf net.new 1) }
    ensures value { IfOk result (λ id. (g : Given) → IsGiven net.old g
        → is_taken net.new g (Some id) ≡ (is_taken net.old g path && (value_at net.old g test == 1))) }
{
    // Asked for what it says of the net: numbers are below 2 to their widths.
    let _width = net.width(test);
    match path {
        None => Ok(test),
        Some(outer) => {
            let both = net.and(outer, test)?;
            Ok(both)
        }
    }
}

/// The path that goes on where a test isn't 1.
pub fn path_unless(net: &mut Net, path: Option<NodeId>, test: NodeId) -> Result<NodeId, Memory>
    requires path { IsPath net.old path }
    requires test { IsNodeOf net.old 1 test }
    ensures adds { AddsNodes net.old net.new }
    ensures there { IfOk result (IsNodeOf net.new 1) }
    ensures value { IfOk result (λ id. (g : Given) → IsGiven net.old g
        → is_taken net.new g (Some id) ≡ (is_taken net.old g path && not (value_at net.old g test == 1))) }
{
    // Asked for what it says of the net: numbers are below 2 to their widths.
    let _width = net.width(test);
    let turned = net.not(test)?;
    let other = path_where(net, path, turned)?;
    Ok(other)
}
