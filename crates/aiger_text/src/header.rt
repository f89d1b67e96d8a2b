//! The header, `aag M I L O A`.
ghost use Rattle.std.specs.Prelude.{◌≡◌, ◌<◌, ◌^◌, ◌==◌, [], option_map, IfOk, IfSome};
ghost use Rattle.std.specs.List.{AllByRecursion, list_all};
ghost use Rattle.aiger_text.specs.Lines.{words};
ghost use Rattle.aiger_text.specs.Header.{shorts, sizes_of, header_of};

use crate::number::short;
use fv_lines::cut_at;
use fv_text::Memory;
use std::alloc::Global;

/// A header has no more numbers behind the first five.
const MOST_FURTHER: usize = 4;

/// What a header says.
#[derive(Clone, Copy)]
pub(crate) struct Sizes {
    /// The greatest variable that there may be.
    pub most: u128,
    pub inputs: u128,
    pub gates: u128,
    /// Whether there are no latches, one output, and nothing further.
    pub plain: bool,
}

/// The numbers of words. None where a word is no number of a header.
fn shorts(alloc: Global, text: &[u8]) -> Result<Option<Vec<u128>>, Memory>
    ensures numbers { IfOk result (λ o. option_map (λ v. v.items) o ≡ shorts [] (words text.now)) }
    ensures small { IfOk result (λ o. IfSome o (λ v. AllByRecursion (λ n. n < 10 ^ 20) v.items)) }
{
    let mut numbers = Vec::new(alloc);
    let mut rest = text;
    while let Some((word, behind)) = cut_at(rest, b' ') {
        let Some(number) = short(word) else {
            return Ok(None);
        };
        numbers.push(number)?;
        rest = behind;
    }
    let Some(number) = short(rest) else {
        return Ok(None);
    };
    numbers.push(number)?;
    Ok(Some(numbers))
}

impl Sizes {
    /// What the numbers of a header say. None where they are too few or too many, or M is below I + L + A.
    fn of_numbers(numbers: &[u128]) -> Option<Sizes>
        requires { AllByRecursion (λ n. n < 10 ^ 20) numbers.now }
        ensures value { result ≡ sizes_of numbers.now }
        ensures within { IfSome result (λ s. s.most < 10 ^ 20) }
    {
        let [most, inputs, latches, outputs, gates, further @ ..] = numbers else {
            return None;
        };
        if further.len() > MOST_FURTHER || *inputs + *latches + *gates > *most {
            return None;
        }
        Some(Sizes {
            most: *most,
            inputs: *inputs,
            gates: *gates,
            plain: *latches == 0 && *outputs == 1 && are_zero(further),
        })
    }

    /// What a line says as a header. None where it is none.
    pub(crate) fn of_line(alloc: Global, line: &[u8]) -> Result<Option<Sizes>, Memory>
        ensures value { IfOk result (λ o. o ≡ header_of line.now) }
        ensures within { IfOk result (λ o. IfSome o (λ s. s.most < 10 ^ 20)) }
    {
        let Some((word, rest)) = cut_at(line, b' ') else {
            return Ok(None);
        };
        if word != b"aag".as_slice() {
            return Ok(None);
        }
        match shorts(alloc, rest)? {
            None => Ok(None),
            Some(numbers) => Ok(Sizes::of_numbers(numbers.as_slice())),
        }
    }
}

fn are_zero(numbers: &[u128]) -> bool
    ensures { result ≡ list_all (λ n. n == 0) numbers.now }
{
    numbers.iter().all(|number| *number == 0)
}
