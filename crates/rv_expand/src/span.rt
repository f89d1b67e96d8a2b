//! Bits of a word, put one behind the other.
#![tactic(auto, using(crate::proofs::SpanLemmas::spans))]

ghost use Rattle.std.specs.Prelude.{◌≡◌, true, ◌+◌, ◌≤◌, IfOk};
ghost use Rattle.std.specs.List.{list_all};
ghost use Rattle.wn_net.specs.Net.{IsNodeOf, value_at};
ghost use Rattle.wn_net.specs.Changes.{AddsNodes, Shows};
ghost use Rattle.rv_expand.specs.Spans as spans;

use fv_text::Memory;
use rv_words::beside;
use wn_net::{Net, NodeId};

/// The bits of a word from `low` up to `high`.
#[derive(Debug, Clone, Copy, PartialEq, Eq)]
pub struct Span {
    pub high: u32,
    pub low: u32,
}

/// The bits of a node of this width in front of those spans of the word.
pub(crate) fn behind(
    net: &mut Net,
    front: NodeId,
    width: u32,
    word: NodeId,
    rest: &[Span],
) -> Result<NodeId, Memory>
    requires front { IsNodeOf net.old width front }
    requires word { IsNodeOf net.old 32 word }
    requires lawful { list_all spans.is_span rest.now ≡ true }
    requires few { width + spans.sizes rest.now ≤ 32 }
    ensures adds { AddsNodes net.old net.new }
    ensures shows { IfOk result (Shows net.old net.new (width + spans.sizes rest.now)
        (λ g. spans.behind (value_at net.old g word) (value_at net.old g front) rest.now)) }
{
    let Some((first, others)) = rest.split_first() else {
        return Ok(front);
    };
    let more = beside(net, front, width, word, first.high, first.low)?;
    let bits = behind(
        net,
        more,
        width + (first.high + 1 - first.low),
        word,
        others,
    )?;
    Ok(bits)
}
