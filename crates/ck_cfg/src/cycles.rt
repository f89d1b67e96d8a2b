//! The numbers of a depth line.

ghost use Rattle.std.specs.Prelude.{◌≡◌, ◌≤◌, None, option_map, IfSome, MatchOption};
ghost use Rattle.fv_lines.specs.Numbers.{natural_of};
ghost use Rattle.fv_lines.specs.Words.{words};
ghost use Rattle.fv_lines.specs.declared.numbers.TheConstants.{MOST};
ghost use Rattle.ck_cfg.specs.Cycles.{lone, pair, triple, lone_or_pair, said_by, cycles_of, IsNumber, capped};

use crate::digits::is_at_most;
use crate::kind::CheckKind;
use fv_lines::{natural, next_word};

/// The cycles that a depth line names. Each stands still at `MOST`.
#[derive(Debug, Clone, Copy, PartialEq, Eq)]
pub(crate) struct Cycles {
    pub start: u64,
    pub trig: u64,
    pub cycle: u64,
}

/// The cycles that the words behind a kind say; None where their number, a number or a condition is wrong.
pub(crate) fn read_cycles(kind: CheckKind, numbers: &[u8]) -> Option<Cycles>
    ensures value { result ≡ option_map (capped MOST) (cycles_of kind (words numbers.now)) }
    ensures ordered { IfSome result (λ c. (c.start ≤ c.trig) × (c.trig ≤ c.cycle)) }
{
    match kind {
        CheckKind::Insn | CheckKind::Ill => lone(numbers),
        CheckKind::Reg
        | CheckKind::PcFwd
        | CheckKind::PcBwd
        | CheckKind::Causal
        | CheckKind::Dmem => pair(numbers),
        CheckKind::Unique | CheckKind::Liveness => triple(numbers),
        CheckKind::Imem => lone_or_pair(numbers),
    }
}

/// The number of a word, or `MOST` where it is more. None where it isn't of digits alone.
fn number(word: &[u8]) -> Option<u64>
    ensures { MatchOption result (natural_of word.now ≡ None) (IsNumber MOST word.now) }
{
    natural(word)
}

fn lone(numbers: &[u8]) -> Option<Cycles>
    ensures value { result ≡ option_map (capped MOST) (said_by lone (words numbers.now)) }
    ensures ordered { IfSome result (λ c. (c.start ≤ c.trig) × (c.trig ≤ c.cycle)) }
{
    let (cycle, rest) = next_word(numbers)?;
    if next_word(rest).is_some() {
        return None;
    }
    let cycle = number(cycle)?;
    if cycle < 1 {
        return None;
    }
    Some(Cycles {
        start: 1,
        trig: cycle,
        cycle,
    })
}

fn pair(numbers: &[u8]) -> Option<Cycles>
    ensures value { result ≡ option_map (capped MOST) (said_by pair (words numbers.now)) }
    ensures ordered { IfSome result (λ c. (c.start ≤ c.trig) × (c.trig ≤ c.cycle)) }
{
    let (first, rest) = next_word(numbers)?;
    let (second, rest) = next_word(rest)?;
    if next_word(rest).is_some() {
        return None;
    }
    let start = number(first)?;
    let cycle = number(second)?;
    if !is_at_most(first, second) {
        return None;
    }
    Some(Cycles {
        start,
        trig: cycle,
        cycle,
    })
}

fn triple(numbers: &[u8]) -> Option<Cycles>
    ensures value { result ≡ option_map (capped MOST) (said_by triple (words numbers.now)) }
    ensures ordered { IfSome result (λ c. (c.start ≤ c.trig) × (c.trig ≤ c.cycle)) }
{
    let (first, rest) = next_word(numbers)?;
    let (second, rest) = next_word(rest)?;
    let (third, rest) = next_word(rest)?;
    if next_word(rest).is_some() {
        return None;
    }
    let start = number(first)?;
    let trig = number(second)?;
    let cycle = number(third)?;
    if !is_at_most(first, second) || is_at_most(third, second) {
        return None;
    }
    Some(Cycles { start, trig, cycle })
}

fn lone_or_pair(numbers: &[u8]) -> Option<Cycles>
    ensures value { result ≡ option_map (capped MOST) (said_by lone_or_pair (words numbers.now)) }
    ensures ordered { IfSome result (λ c. (c.start ≤ c.trig) × (c.trig ≤ c.cycle)) }
{
    let (first, rest) = next_word(numbers)?;
    let Some((second, rest)) = next_word(rest) else {
        return lone(numbers);
    };
    if next_word(rest).is_some() {
        return None;
    }
    let _start = number(first)?;
    let cycle = number(second)?;
    if cycle < 1 || !is_at_most(first, second) {
        return None;
    }
    Some(Cycles {
        start: 1,
        trig: cycle,
        cycle,
    })
}
