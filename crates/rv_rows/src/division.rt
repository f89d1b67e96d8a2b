//! Division bit by bit: what is left takes one more bit of the dividend, and gives the divisor where that fits.
#![tactic(auto, using(wn_net::proofs::Laws::additions, rv_words::proofs::BitLemmas::tests))]

ghost use Rattle.std.specs.Prelude.{
  ◌≡◌,
  ◌==◌,
  not,
  nat_lt,
  if◌then◌else◌,
  ◌+◌,
  ◌-◌,
  ◌<◌,
  ◌≤◌,
  ◌^◌,
  IfOk,
};
ghost use Rattle.fv_bits.specs.Bits as bits;
ghost use Rattle.rv_table.specs.Arithmetic as arithmetic;
ghost use Rattle.wn_net.specs.Value.{Given};
ghost use Rattle.wn_net.specs.Given.{IsGiven};
ghost use Rattle.wn_net.specs.Net.{IsNodeOf, value_at};
ghost use Rattle.wn_net.specs.Changes.{AddsNodes, Shows};
ghost use Rattle.rv_rows.specs.Division.{IsDivided, AreDivision};

use fv_text::Memory;
use rv_words::{is_number, word};
use wn_net::{Net, NodeId};

/// The quotient and what is left, of the upper bits of a word.
#[derive(Debug, Clone, Copy, PartialEq, Eq)]
pub struct Division {
    pub quotient: NodeId,
    pub rest: NodeId,
}

/// What is left, with one more bit of the dividend behind it, in 33 bits.
fn behind(net: &mut Net, rest: NodeId, a: NodeId, at: u32) -> Result<NodeId, Memory>
    requires rest { IsNodeOf net.old 32 rest }
    requires left { IsNodeOf net.old 32 a }
    requires within { at < 32 }
    ensures adds { AddsNodes net.old net.new }
    ensures shows { IfOk result (Shows net.old net.new 33
        (λ g. bits.joined 1 (value_at net.old g rest) (bits.part at 1 (value_at net.old g a)))) }
{
    let bit = net.slice(a, at, 1)?;
    let number = net.concat(rest, bit)?;
    Ok(number)
}

/// 1 where the divisor is no more than the number.
fn fits(net: &mut Net, number: NodeId, b: NodeId) -> Result<NodeId, Memory>
    requires number { IsNodeOf net.old 33 number }
    requires divisor { IsNodeOf net.old 33 b }
    ensures adds { AddsNodes net.old net.new }
    ensures shows { IfOk result (Shows net.old net.new 1
        (λ g. bits.bit (not (nat_lt (value_at net.old g number) (value_at net.old g b))))) }
{
    let less = net.ult(number, b)?;
    let test = net.not(less)?;
    Ok(test)
}

/// The number without the divisor where that fits.
fn reduced(net: &mut Net, number: NodeId, b: NodeId, fits: NodeId) -> Result<NodeId, Memory>
    requires number { IsNodeOf net.old 33 number }
    requires divisor { IsNodeOf net.old 33 b }
    requires fits { IsNodeOf net.old 1 fits }
    ensures adds { AddsNodes net.old net.new }
    ensures shows { IfOk result (Shows net.old net.new 32
        (λ g. bits.part 0 32 (if value_at net.old g fits == 1
        then bits.difference 33 (value_at net.old g number) (value_at net.old g b)
        else value_at net.old g number))) }
{
    let less = net.sub(number, b)?;
    let chosen = net.mux(fits, less, number)?;
    let rest = net.slice(chosen, 0, 32)?;
    Ok(rest)
}

/// The word moved up by one, with the bit behind it.
fn appended(net: &mut Net, quotient: NodeId, bit: NodeId) -> Result<NodeId, Memory>
    requires quotient { IsNodeOf net.old 32 quotient }
    requires bit { IsNodeOf net.old 1 bit }
    ensures adds { AddsNodes net.old net.new }
    ensures shows { IfOk result (Shows net.old net.new 32
        (λ g. bits.joined 1 (bits.part 0 31 (value_at net.old g quotient)) (value_at net.old g bit))) }
{
    let tail = net.slice(quotient, 0, 31)?;
    let word = net.concat(tail, bit)?;
    Ok(word)
}

/// One more bit of the dividend.
fn divide_bit(
    net: &mut Net,
    old: Division,
    a: NodeId,
    b: NodeId,
    at: u32,
) -> Result<Division, Memory>
    requires division { AreDivision net.old old }
    requires left { IsNodeOf net.old 32 a }
    requires right { IsNodeOf net.old 32 b }
    requires within { at < 32 }
    ensures adds { AddsNodes net.old net.new }
    ensures there { IfOk result (AreDivision net.new) }
    ensures value { IfOk result (λ new. (g : Given) → IsGiven net.old g → 0 < value_at net.old g b
        → IsDivided (value_at net.old g a) (value_at net.old g b) (at + 1)
        (value_at net.old g old.quotient) (value_at net.old g old.rest)
        → IsDivided (value_at net.old g a) (value_at net.old g b) at
        (value_at net.new g new.quotient) (value_at net.new g new.rest)) }
{
    let _ = net.width(a);
    let number = behind(net, old.rest, a, at)?;
    let divisor = net.zext(b, 33)?;
    let fits = fits(net, number, divisor)?;
    let rest = reduced(net, number, divisor, fits)?;
    let quotient = appended(net, old.quotient, fits)?;
    Ok(Division { quotient, rest })
}

/// Quotient and remainder of two words, where the divisor isn't 0.
fn divide(net: &mut Net, a: NodeId, b: NodeId) -> Result<Division, Memory>
    requires left { IsNodeOf net.old 32 a }
    requires right { IsNodeOf net.old 32 b }
    ensures adds { AddsNodes net.old net.new }
    ensures there { IfOk result (AreDivision net.new) }
    ensures value { IfOk result (λ new. (g : Given) → IsGiven net.old g → 0 < value_at net.old g b
        → IsDivided (value_at net.old g a) (value_at net.old g b) 0
        (value_at net.new g new.quotient) (value_at net.new g new.rest)) }
{
    let _ = net.width(a);
    let zero = word(net, 0)?;
    let mut division = Division {
        quotient: zero,
        rest: zero,
    };
    for done in 0..32u32 {
        division = divide_bit(net, division, a, b, 31 - done)?;
    }
    Ok(division)
}

/// The quotient of two words: all ones where the divisor is 0.
pub(crate) fn quotient(net: &mut Net, a: NodeId, b: NodeId) -> Result<NodeId, Memory>
    requires left { IsNodeOf net.old 32 a }
    requires right { IsNodeOf net.old 32 b }
    ensures adds { AddsNodes net.old net.new }
    ensures shows { IfOk result (Shows net.old net.new 32
        (λ g. arithmetic.quotient (value_at net.old g a) (value_at net.old g b))) }
{
    let division = divide(net, a, b)?;
    let ones = word(net, u32::MAX)?;
    let is_zero = is_number(net, b, 32, 0)?;
    let chosen = net.mux(is_zero, ones, division.quotient)?;
    Ok(chosen)
}

/// What is left of the division of two words: the dividend where the divisor is 0.
pub(crate) fn remainder(net: &mut Net, a: NodeId, b: NodeId) -> Result<NodeId, Memory>
    requires left { IsNodeOf net.old 32 a }
    requires right { IsNodeOf net.old 32 b }
    ensures adds { AddsNodes net.old net.new }
    ensures shows { IfOk result (Shows net.old net.new 32
        (λ g. arithmetic.remainder (value_at net.old g a) (value_at net.old g b))) }
{
    let division = divide(net, a, b)?;
    let is_zero = is_number(net, b, 32, 0)?;
    let chosen = net.mux(is_zero, a, division.rest)?;
    Ok(chosen)
}
