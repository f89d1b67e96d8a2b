//! The registers and immediates of a half word (RISC-V unprivileged manual, chapter 16).
#![tactic(auto, using(crate::proofs::SpanLemmas::spans, crate::proofs::HalfLemmas::halves))]

ghost use Rattle.std.specs.Prelude.{◌≡◌, true, ◌+◌, ◌-◌, ◌<◌, ◌≤◌, ◌^◌, IfOk};
ghost use Rattle.std.specs.List.{list_all};
ghost use Rattle.fv_bits.specs.Bits.{joined};
ghost use Rattle.rv_table.specs.Compressed as compressed;
ghost use Rattle.rv_table.specs.Fields as fields;
ghost use Rattle.wn_net.specs.Net.{IsNodeOf, value_at};
ghost use Rattle.wn_net.specs.Changes.{AddsNodes, Shows};
ghost use Rattle.rv_expand.specs.Spans as spans;

use crate::span::{Span, behind};
use fv_text::Memory;
use rv_words::{beside, constant, field, join, raised, sign_extended, zero_extended};
use wn_net::{Net, NodeId};

/// One of the registers x8 to x15, in five bits: 8 and the three bits from `low` on.
fn near(net: &mut Net, half: NodeId, low: u32) -> Result<NodeId, Memory>
    requires half { IsNodeOf net.old 32 half }
    requires within { low < 30 }
    ensures adds { AddsNodes net.old net.new }
    ensures shows { IfOk result (Shows net.old net.new 5
        (λ g. joined 3 1 (fields.field (low + 2) low (value_at net.old g half)))) }
{
    let one = constant(net, 2, 1)?;
    let three = field(net, half, low + 2, low)?;
    let register = join(net, one, 2, three, 3)?;
    Ok(register)
}

pub(crate) fn near_low(net: &mut Net, half: NodeId) -> Result<NodeId, Memory>
    requires { IsNodeOf net.old 32 half }
    ensures adds { AddsNodes net.old net.new }
    ensures shows { IfOk result (Shows net.old net.new 5
        (λ g. compressed.near_low (value_at net.old g half))) }
{
    let register = near(net, half, 2)?;
    Ok(register)
}

pub(crate) fn near_high(net: &mut Net, half: NodeId) -> Result<NodeId, Memory>
    requires { IsNodeOf net.old 32 half }
    ensures adds { AddsNodes net.old net.new }
    ensures shows { IfOk result (Shows net.old net.new 5
        (λ g. compressed.near_high (value_at net.old g half))) }
{
    let register = near(net, half, 7)?;
    Ok(register)
}

/// The register of bits 11:7.
#[tactic(auto, using(wn_net::proofs::Laws::additions), unfolding(rv_table::specs::Compressed::far))]
pub(crate) fn far(net: &mut Net, half: NodeId) -> Result<NodeId, Memory>
    requires { IsNodeOf net.old 32 half }
    ensures adds { AddsNodes net.old net.new }
    ensures shows { IfOk result (Shows net.old net.new 5 (λ g. compressed.far (value_at net.old g half))) }
{
    field(net, half, 11, 7)
}

/// The register, or the amount of a shift, of bits 6:2.
#[tactic(auto, using(wn_net::proofs::Laws::additions), unfolding(rv_table::specs::Compressed::second))]
pub(crate) fn second(net: &mut Net, half: NodeId) -> Result<NodeId, Memory>
    requires { IsNodeOf net.old 32 half }
    ensures adds { AddsNodes net.old net.new }
    ensures shows { IfOk result (Shows net.old net.new 5 (λ g. compressed.second (value_at net.old g half))) }
{
    field(net, half, 6, 2)
}

/// The amount of a shift, as an immediate.
#[tactic(auto, using(wn_net::proofs::Laws::additions), unfolding(rv_table::specs::Compressed::second))]
pub(crate) fn amount(net: &mut Net, half: NodeId) -> Result<NodeId, Memory>
    requires { IsNodeOf net.old 32 half }
    ensures adds { AddsNodes net.old net.new }
    ensures shows { IfOk result (Shows net.old net.new 32 (λ g. compressed.second (value_at net.old g half))) }
{
    let bits = second(net, half)?;
    let word = zero_extended(net, bits, 5)?;
    Ok(word)
}

/// The bit `sign` of the half word and spans of it, with so many zeros below, as a signed number.
fn signed_spans(
    net: &mut Net,
    half: NodeId,
    sign: u32,
    rest: &[Span],
    zeros: u32,
) -> Result<NodeId, Memory>
    requires half { IsNodeOf net.old 32 half }
    requires within { sign < 32 }
    requires lawful { list_all spans.is_span rest.now ≡ true }
    requires some { 1 ≤ zeros }
    requires few { 1 + spans.sizes rest.now + zeros ≤ 32 }
    ensures adds { AddsNodes net.old net.new }
    ensures shows { IfOk result (Shows net.old net.new 32
        (λ g. fields.sign_extended (1 + spans.sizes rest.now + zeros) (joined zeros
        (spans.behind (value_at net.old g half) (fields.field sign sign (value_at net.old g half)) rest.now) 0))) }
{
    let front = field(net, half, sign, sign)?;
    let bits = behind(net, front, 1, half, rest)?;
    let width = net.width(bits);
    let number = raised(net, bits, width, zeros)?;
    let word = sign_extended(net, number, width + zeros)?;
    Ok(word)
}

/// Spans of the half word, with so many zeros below.
fn unsigned_spans(
    net: &mut Net,
    half: NodeId,
    first: Span,
    rest: &[Span],
    zeros: u32,
) -> Result<NodeId, Memory>
    requires half { IsNodeOf net.old 32 half }
    requires first { spans.is_span first ≡ true }
    requires lawful { list_all spans.is_span rest.now ≡ true }
    requires some { 1 ≤ zeros }
    requires few { spans.size first + spans.sizes rest.now + zeros ≤ 32 }
    ensures adds { AddsNodes net.old net.new }
    ensures shows { IfOk result (Shows net.old net.new 32
        (λ g. joined zeros (spans.behind (value_at net.old g half)
        (fields.field first.high first.low (value_at net.old g half)) rest.now) 0)) }
{
    let front = field(net, half, first.high, first.low)?;
    let bits = behind(net, front, first.high + 1 - first.low, half, rest)?;
    let width = net.width(bits);
    let number = raised(net, bits, width, zeros)?;
    let word = zero_extended(net, number, width + zeros)?;
    Ok(word)
}

/// A signed number of six bits.
pub(crate) fn six(net: &mut Net, half: NodeId) -> Result<NodeId, Memory>
    requires { IsNodeOf net.old 32 half }
    ensures adds { AddsNodes net.old net.new }
    ensures shows { IfOk result (Shows net.old net.new 32 (λ g. compressed.six (value_at net.old g half))) }
{
    let sign = field(net, half, 12, 12)?;
    let bits = beside(net, sign, 1, half, 6, 2)?;
    let word = sign_extended(net, bits, 6)?;
    Ok(word)
}

pub(crate) fn addi4spn_immediate(net: &mut Net, half: NodeId) -> Result<NodeId, Memory>
    requires { IsNodeOf net.old 32 half }
    ensures adds { AddsNodes net.old net.new }
    ensures shows { IfOk result (Shows net.old net.new 32
        (λ g. compressed.addi4spn_immediate (value_at net.old g half))) }
{
    let word = unsigned_spans(
        net,
        half,
        Span { high: 10, low: 7 },
        &[
            Span { high: 12, low: 11 },
            Span { high: 5, low: 5 },
            Span { high: 6, low: 6 },
        ],
        2,
    )?;
    Ok(word)
}

pub(crate) fn word_offset(net: &mut Net, half: NodeId) -> Result<NodeId, Memory>
    requires { IsNodeOf net.old 32 half }
    ensures adds { AddsNodes net.old net.new }
    ensures shows { IfOk result (Shows net.old net.new 32
        (λ g. compressed.word_offset (value_at net.old g half))) }
{
    let word = unsigned_spans(
        net,
        half,
        Span { high: 5, low: 5 },
        &[Span { high: 12, low: 10 }, Span { high: 6, low: 6 }],
        2,
    )?;
    Ok(word)
}

pub(crate) fn jump_offset(net: &mut Net, half: NodeId) -> Result<NodeId, Memory>
    requires { IsNodeOf net.old 32 half }
    ensures adds { AddsNodes net.old net.new }
    ensures shows { IfOk result (Shows net.old net.new 32
        (λ g. compressed.jump_offset (value_at net.old g half))) }
{
    let word = signed_spans(
        net,
        half,
        12,
        &[
            Span { high: 8, low: 8 },
            Span { high: 10, low: 9 },
            Span { high: 6, low: 6 },
            Span { high: 7, low: 7 },
            Span { high: 2, low: 2 },
            Span { high: 11, low: 11 },
            Span { high: 5, low: 3 },
        ],
        1,
    )?;
    Ok(word)
}

pub(crate) fn addi16sp_immediate(net: &mut Net, half: NodeId) -> Result<NodeId, Memory>
    requires { IsNodeOf net.old 32 half }
    ensures adds { AddsNodes net.old net.new }
    ensures shows { IfOk result (Shows net.old net.new 32
        (λ g. compressed.addi16sp_immediate (value_at net.old g half))) }
{
    let word = signed_spans(
        net,
        half,
        12,
        &[
            Span { high: 4, low: 3 },
            Span { high: 5, low: 5 },
            Span { high: 2, low: 2 },
            Span { high: 6, low: 6 },
        ],
        4,
    )?;
    Ok(word)
}

pub(crate) fn lui_immediate(net: &mut Net, half: NodeId) -> Result<NodeId, Memory>
    requires { IsNodeOf net.old 32 half }
    ensures adds { AddsNodes net.old net.new }
    ensures shows { IfOk result (Shows net.old net.new 32
        (λ g. compressed.lui_immediate (value_at net.old g half))) }
{
    let word = signed_spans(net, half, 12, &[Span { high: 6, low: 2 }], 12)?;
    Ok(word)
}

pub(crate) fn branch_offset(net: &mut Net, half: NodeId) -> Result<NodeId, Memory>
    requires { IsNodeOf net.old 32 half }
    ensures adds { AddsNodes net.old net.new }
    ensures shows { IfOk result (Shows net.old net.new 32
        (λ g. compressed.branch_offset (value_at net.old g half))) }
{
    let word = signed_spans(
        net,
        half,
        12,
        &[
            Span { high: 6, low: 5 },
            Span { high: 2, low: 2 },
            Span { high: 11, low: 10 },
            Span { high: 4, low: 3 },
        ],
        1,
    )?;
    Ok(word)
}

pub(crate) fn lwsp_offset(net: &mut Net, half: NodeId) -> Result<NodeId, Memory>
    requires { IsNodeOf net.old 32 half }
    ensures adds { AddsNodes net.old net.new }
    ensures shows { IfOk result (Shows net.old net.new 32
        (λ g. compressed.lwsp_offset (value_at net.old g half))) }
{
    let word = unsigned_spans(
        net,
        half,
        Span { high: 3, low: 2 },
        &[Span { high: 12, low: 12 }, Span { high: 6, low: 4 }],
        2,
    )?;
    Ok(word)
}

pub(crate) fn swsp_offset(net: &mut Net, half: NodeId) -> Result<NodeId, Memory>
    requires { IsNodeOf net.old 32 half }
    ensures adds { AddsNodes net.old net.new }
    ensures shows { IfOk result (Shows net.old net.new 32
        (λ g. compressed.swsp_offset (value_at net.old g half))) }
{
    let word = unsigned_spans(
        net,
        half,
        Span { high: 8, low: 7 },
        &[Span { high: 12, low: 9 }],
        2,
    )?;
    Ok(word)
}
