//! What is asked of the two halves of an induction: what may be chosen, and what comes of it.

ghost use Rattle.std.specs.Prelude.{◌≤◌, IfOk, IsTrue};
ghost use Rattle.wn_net.specs.Net.{IsNode};
ghost use Rattle.bm_unroll.specs.Frames.{IsFrames};
ghost use Rattle.bm_induct.specs.Halves.{IsWithinBy};

use crate::graph::{is_true, values_of};
use crate::part::{node_at, numbers_from, short_at, word};
use crate::runs::put_sources;
use bb_blast::blast;
use bm_induct::{base, step};
use bm_unroll::{Frames, is_within};
use fv_text::Memory;
use std::alloc::Global;
use wn_net::{Init, Net, NodeId};

/// Whether a net is small enough, three registers more being added.
fn has_room(net: &Net) -> Result<bool, Memory>
    ensures { IfOk result (λ yes. IsTrue yes → IsWithinBy 3 net.now) }
{
    let mut more = net.copy()?;
    if more.regs().len() > 100_000_000 {
        return Ok(false);
    }
    more.reg(1, Init::Known(0))?;
    more.reg(1, Init::Known(0))?;
    more.reg(1, Init::Known(0))?;
    Ok(is_within(&more))
}

/// The frames of the half that a word names.
fn half(alloc: Global, net: &Net, name: &str, bad: NodeId, k: u32) -> Result<Frames, Memory>
    requires bad { IsNode net.now bad }
    requires within { IsWithinBy 3 net.now }
    requires some { 1 ≤ k }
    requires few { k ≤ 100 }
    ensures { IfOk result IsFrames }
{
    match name {
        "base" | "base-sources" => base(alloc, net, bad, k),
        _ => step(alloc, net, bad, k),
    }
}

/// Writes the answer to a part. Whether it fits the net.
pub(crate) fn answer(
    alloc: Global,
    net: &Net,
    out: &mut String,
    part: &str,
) -> Result<bool, Memory> {
    let k = short_at(part, 1);
    let bad = node_at(part, 2);
    if k < 1 || k > 100 || !net.has(bad) || !has_room(net)? {
        return Ok(false);
    }
    let frames = half(alloc, net, word(part, 0), bad, k)?;
    match word(part, 0) {
        "base" | "later" => shown(
            alloc,
            out,
            &frames,
            numbers_from(alloc, part, 3)?.as_slice(),
        ),
        _ => {
            put_sources(out, frames.sources.as_slice())?;
            Ok(true)
        }
    }
}

/// Whether all roots are other than 0 where sources have these numbers.
fn shown(alloc: Global, out: &mut String, frames: &Frames, numbers: &[u128]) -> Result<bool, Memory>
    requires { IsFrames frames.now }
{
    let widths = frames.widths.as_slice();
    let nodes = frames.nodes.as_slice();
    let roots = frames.roots.as_slice();
    let watched = frames.watch.as_slice();
    let blasted = blast(alloc, widths, nodes, roots, watched)?;
    match values_of(alloc, &blasted.graph, widths, numbers)? {
        Some(values) => {
            write!(out, "{}", is_true(values.as_slice(), blasted.root))?;
            Ok(true)
        }
        None => Ok(false),
    }
}
