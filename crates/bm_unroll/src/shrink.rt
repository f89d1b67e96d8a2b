//! Frames with equal nodes once, and with the sources alone that are read.
ghost use Rattle.std.specs.Prelude.{◌≡◌, ◌<◌, ◌≤◌, ◌++◌, drop, length, map, slice_index, take, IfOk};
ghost use Rattle.std.specs.List.{AllByRecursion};
ghost use Rattle.wn_net.specs.Net.{IsNet, AreNodes};
ghost use Rattle.wn_opt.specs.Compact.{IsFlat};
ghost use Rattle.bm_unroll.specs.Shrunk as spec;
ghost use Rattle.bm_unroll.specs.Shrunk.{IsShrunk, frames_of};

use crate::draft::Draft;
use crate::frames::{Frames, Source};
use crate::walked::Walked;
use fv_text::{List, Memory};
use std::alloc::Global;
use wn_net::NodeId;
use wn_opt::{Compacted, compact};

/// The source at a place; input 0 where there is none.
fn source_at(sources: &[Source], place: u32) -> Source
    ensures { result ≡ spec.source_at sources.now place }
{
    match sources.get(place as usize) {
        Some(source) => *source,
        None => Source::Once(0),
    }
}

/// The sources at these places.
fn sources_at(alloc: Global, sources: &[Source], kept: &[u32]) -> Result<Vec<Source>, Memory>
    ensures { IfOk result (λ made. made.items ≡ map (spec.source_at sources.now) kept.now) }
{
    let mut made = Vec::with_capacity(alloc, kept.len())?;
    for place in kept {
        made.push(source_at(sources, *place))?;
    }
    Ok(made)
}

/// The widths at these places.
fn widths_at(alloc: Global, widths: &[u32], kept: &[u32]) -> Result<Vec<u32>, Memory>
    requires { AllByRecursion (λ i. i < length widths.now) kept.now }
    ensures { IfOk result (λ made. made.items ≡ map (slice_index widths.now) kept.now) }
{
    let mut made = Vec::with_capacity(alloc, kept.len())?;
    for place in kept {
        made.push(widths[*place as usize])?;
    }
    Ok(made)
}

/// The roots, and the watched nodes behind them.
fn ends_of(alloc: Global, walked: &Walked) -> Result<Vec<NodeId>, Memory>
    ensures { IfOk result (λ made. made.items ≡ walked.now.roots.items ++ walked.now.watch.items) }
{
    let mut ids = Vec::new(alloc);
    ids.extend_from_slice(walked.roots.as_slice())?;
    ids.extend_from_slice(walked.watch.as_slice())?;
    Ok(ids)
}

/// Frames of what was made: of its roots the first stand for the old roots, and the others for the watched nodes.
fn framed(
    alloc: Global,
    made: Compacted,
    sources: Vec<Source>,
    widths: Vec<u32>,
    walked: &Walked,
) -> Result<Frames, Memory>
    requires long { length walked.now.roots.items ≤ length made.roots }
    ensures net { IsNet made.net }
    ensures nodes { IfOk result (λ f. f.nodes ≡ made.net.nodes) }
    ensures sources { IfOk result (λ f. f.sources ≡ sources.items) }
    ensures widths { IfOk result (λ f. f.widths ≡ widths.items) }
    ensures roots { IfOk result (λ f. f.roots ≡ take (length walked.now.roots.items) made.roots) }
    ensures watch { IfOk result (λ f. f.watch ≡ drop (length walked.now.roots.items) made.roots) }
{
    let Compacted {
        net,
        roots: ends,
        ..
    } = made;
    let _ = net.nodes();
    let (first, last) = ends.as_slice().split_at(walked.roots.len());
    let roots = Vec::from_slice(alloc, first)?;
    let watch = Vec::from_slice(alloc, last)?;
    Ok(Frames {
        nodes: net.into_nodes(),
        sources: List::from_vec(sources),
        widths: List::from_vec(widths),
        roots: List::from_vec(roots),
        watch: List::from_vec(watch),
    })
}

/// The drafted frames once more, with equal nodes once, operators of constants as constants, and the sources alone that
/// a root or a watched node reads.
pub(crate) fn shrink(alloc: Global, draft: Draft, walked: Walked) -> Result<Frames, Memory>
    requires flat { IsFlat draft.net }
    requires inputs { map (λ x. x.width) draft.net.inputs ≡ draft.widths.items }
    requires each { length draft.widths.items ≡ length draft.sources.items }
    requires roots { AreNodes draft.net walked.roots.items }
    requires watch { AreNodes draft.net walked.watch.items }
    ensures { IfOk result (IsShrunk (frames_of draft walked)) }
{
    let ids = ends_of(alloc, &walked)?;
    let ends = ids.as_slice();
    let made = compact(alloc, &draft.net, ends)?;
    let kept = made.inputs.as_slice();
    let listed = draft.sources.as_slice();
    let sources = sources_at(alloc, listed, kept)?;
    let wide = draft.widths.as_slice();
    let widths = widths_at(alloc, wide, kept)?;
    let frames = framed(alloc, made, sources, widths, &walked)?;
    Ok(frames)
}
