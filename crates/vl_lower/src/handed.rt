//! What a frame has assumed, and what stood in it before.

ghost use Rattle.std.specs.Prelude.{◌≡◌, [], ◌++◌, OnOk};
ghost use Rattle.vl_lower_assign.specs.Frames.{taken_back};

use fv_text::{List, Memory};
use std::alloc::Global;
use vl_lower_assign::{Change, Frame};
use wn_net::NodeId;

/// Hands the nodes over that a frame has assumed, behind others.
pub(crate) fn hand_over(
    alloc: Global,
    frame: &mut Frame,
    nodes: &mut List<NodeId>,
) -> Result<(), Memory>
    ensures nodes { OnOk result (nodes.new ≡ nodes.old ++ frame.old.assumed) }
    ensures frame { OnOk result (frame.new ≡ record frame.old { assumed = [] }) }
{
    for node in frame.assumed.as_slice() {
        nodes.push(*node)?;
    }
    frame.assumed = List::new(alloc);
    Ok(())
}

/// Takes the cells of a frame back to what stood in them before they were written.
pub(crate) fn take_back(alloc: Global, frame: &mut Frame)
    ensures now { frame.new.now.items ≡ taken_back frame.old.log frame.old.now.items }
    ensures next { frame.new.next.items ≡ frame.old.next.items }
    ensures assumed { frame.new.assumed ≡ frame.old.assumed }
    ensures tracks { frame.new.tracks.items ≡ frame.old.tracks.items }
    ensures log { frame.new.log ≡ [] }
{
    let mut left = frame.log.len();
    while left > 0 {
        left -= 1;
        if let Some(Change { cell, node }) = frame.log.get(left).copied() {
            if cell < frame.now.len() {
                frame.now[cell] = node;
            }
        }
    }
    frame.log = List::new(alloc);
}
