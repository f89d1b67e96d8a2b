ghost use Rattle.std.specs.Prelude.{
  ◌≡◌,
  ◌<◌,
  ◌≤◌,
  ◌^◌,
  [],
  List,
  ℕ,
  ℤ,
  unsigned_abs,
  option_map,
  IfOk,
  IfSome,
  OnOk,
};
ghost use Rattle.fv_lines.specs.Words.{lines, words, next_place};
ghost use Rattle.lrat_check.specs.Sets.{AreLits, IsLit};
ghost use Rattle.lrat_check.specs.Steps.{IsStep, AreSteps};
ghost use Rattle.lrat_check.specs.Texts.{short, nonzero, literal_of, is_end, is_delete, up_to_end, ended, add_of};
ghost use Rattle.lrat_check.specs.Texts.{delete_of, behind_id, step_of, with_line, with_lines, steps_of, OrMemory};
ghost use Rattle.lrat_check.specs.Texts.{Answers, Goes};

use crate::lrat_fault::LratFault;
use crate::step::Step;
use fv_lines::{natural, next_line, next_place, next_word};
use fv_text::List;
use std::alloc::Global;

/// Numbers have at most so many digits.
const MOST_DIGITS: usize = 18;

/// The steps of a proof, one a line. Blank lines stand anywhere; there are no comments.
pub fn read_lrat(alloc: Global, bytes: &[u8]) -> Result<Vec<Step>, LratFault>
    ensures answers { Answers (λ steps. steps.items) result (steps_of bytes.now) }
    ensures steps { IfOk result (λ steps. AreSteps steps.items) }
{
    let mut steps = Vec::new(alloc);
    let mut rest = bytes;
    let mut line = 1;
    while !rest.is_empty() {
        let (text, behind) = next_line(rest);
        take_line(alloc, &mut steps, line, text)?;
        line = next_place(line);
        rest = behind;
    }
    Ok(steps)
}

/// The step of the line, if it isn't blank.
fn take_line(alloc: Global, steps: &mut Vec<Step>, line: u32, text: &[u8]) -> Result<(), LratFault>
    requires { AreSteps steps.old.items }
    ensures goes { Goes steps.new.items result (with_line line steps.old.items text.now) }
    ensures steps { OnOk result (AreSteps steps.new.items) }
{
    if next_word(text).is_none() {
        return Ok(());
    }
    steps.push(step_of(alloc, line, text)?)?;
    Ok(())
}

fn step_of(alloc: Global, line: u32, text: &[u8]) -> Result<Step, LratFault>
    ensures answers { Answers (λ s. s) result (step_of line (words text.now)) }
    ensures step { IfOk result IsStep }
{
    let Some((word, rest)) = next_word(text) else {
        return Err(LratFault::Open { line });
    };
    let Some(id) = short(word) else {
        return Err(LratFault::Literal { line });
    };
    let Some((word, behind)) = next_word(rest) else {
        return Err(LratFault::Open { line });
    };
    if word == b"d".as_slice() {
        delete_of(alloc, line, id, behind)
    } else {
        add_of(alloc, line, id, rest)
    }
}

fn add_of(alloc: Global, line: u32, id: u64, text: &[u8]) -> Result<Step, LratFault>
    ensures answers { Answers (λ s. s) result (add_of line id (words text.now)) }
    ensures step { IfOk result IsStep }
{
    let (lits, rest) = literals(alloc, line, text)?;
    let (hints, rest) = literals(alloc, line, rest)?;
    if next_word(rest).is_some() {
        return Err(LratFault::Literal { line });
    }
    Ok(Step::Add { id, lits, hints })
}

fn delete_of(alloc: Global, line: u32, id: u64, text: &[u8]) -> Result<Step, LratFault>
    ensures answers { Answers (λ s. s) result (delete_of line id (words text.now)) }
    ensures step { IfOk result IsStep }
{
    let (ids, rest) = deleted(alloc, line, text)?;
    if next_word(rest).is_some() {
        return Err(LratFault::Literal { line });
    }
    Ok(Step::Delete { id, ids })
}

/// The literals up to the word `0`, and what stands behind it.
fn literals(alloc: Global, line: u32, text: &[u8]) -> Result<(List<i64>, &[u8]), LratFault>
    ensures answers { Answers (λ x. (x.0, words x.1.now)) result (up_to_end literal_of line [] (words text.now)) }
    ensures lits { IfOk result (λ x. AreLits x.0) }
{
    let mut lits = List::new(alloc);
    let mut rest = text;
    while let Some((word, behind)) = next_word(rest) {
        rest = behind;
        if is_end(word) {
            return Ok((lits, rest));
        }
        let Some(lit) = literal_of(word) else {
            return Err(LratFault::Literal { line });
        };
        lits.push(lit)?;
    }
    Err(LratFault::Open { line })
}

/// The ids up to the word `0`, and what stands behind it.
fn deleted(alloc: Global, line: u32, text: &[u8]) -> Result<(List<u64>, &[u8]), LratFault>
    ensures { Answers (λ x. (x.0, words x.1.now)) result
        (up_to_end (λ w. nonzero (short w)) line [] (words text.now)) }
{
    let mut ids = List::new(alloc);
    let mut rest = text;
    while let Some((word, behind)) = next_word(rest) {
        rest = behind;
        if is_end(word) {
            return Ok((ids, rest));
        }
        let Some(id) = nonzero(word) else {
            return Err(LratFault::Literal { line });
        };
        ids.push(id)?;
    }
    Err(LratFault::Open { line })
}

fn is_end(word: &[u8]) -> bool
    ensures { result ≡ is_end word.now }
{
    word == b"0".as_slice()
}

/// A number of 1 to 18 digits.
fn short(word: &[u8]) -> Option<u64>
    ensures value { result ≡ short word.now }
    ensures small { IfSome result (λ n. n < 10 ^ 18) }
{
    if word.len() > MOST_DIGITS {
        return None;
    }
    natural(word)
}

/// A number of 1 to 18 digits, not zero.
fn nonzero(word: &[u8]) -> Option<u64>
    ensures value { result ≡ nonzero (short word.now) }
    ensures small { IfSome result (λ n. n < 10 ^ 18) }
    ensures some { IfSome result (λ n. 0 < n) }
{
    let number = short(word)?;
    if number == 0 { None } else { Some(number) }
}

/// A literal or a hint: such a number, with or without `-`.
fn literal_of(word: &[u8]) -> Option<i64>
    ensures value { result ≡ literal_of word.now }
    ensures lit { IfSome result IsLit }
{
    match word {
        [b'-', digits @ ..] => {
            let var = nonzero(digits)?;
            Some(-(var as i64))
        }
        _ => {
            let var = nonzero(word)?;
            Some(var as i64)
        }
    }
}
