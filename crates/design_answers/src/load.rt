//! Cases of loading. A case is a line: what is asked for, and the texts. The answer is `loaded` with the numbers of
//! inputs, registers and memories, the weight, and the options that are there, or else the part that refuses and its
//! refusal: that of a text as `lex`, `prep` or `parse`, those of a design by their numbers.

ghost use Rattle.std.specs.Prelude.{◌≤◌, length, IfOk};

use crate::load_shown::{loaded, refusal};
use crate::texts::parts;
use anyhow::Result;
use rvf_load::{Probes, load};
use std::alloc::Global;
use vl_text::{Assumption, Core, Retirements, SourceText};

/// What weights are multiplied by at one letter, and at another.
const HUNDRED: [u32; 1] = [100];

const SEVENTIES: [u32; 2] = [76, 77];

/// The factors that the letters ask for.
fn factors(alloc: Global, asked: &[u8]) -> Result<Vec<u32>>
    ensures { IfOk result (λ factors. length factors.items ≤ 2) }
{
    if asked.contains(&b'h') {
        return Ok(Vec::from_slice(alloc, &HUNDRED)?);
    }
    if asked.contains(&b's') {
        return Ok(Vec::from_slice(alloc, &SEVENTIES)?);
    }
    Ok(Vec::new(alloc))
}

/// What is answered of the texts. Of the letters `c` stands for a core with compressed instructions, `i` and `d` for
/// the probes of memories, `2` for two channels, `h` for the factor 100, and `s` for the factors 76 and 77. A text is a
/// line of the configuration behind `d`, a line of assumptions behind `a`, and else a file. Lines are numbered from 1
/// on in this order, and so are files.
fn answer_texts(alloc: Global, asked: &[u8], parts: &[Vec<u8>]) -> Result<String> {
    let mut texts = Vec::new(alloc);
    let mut assumptions = Vec::new(alloc);
    let mut line = 0u32;
    let mut file = 0u32;
    for part in parts {
        match part.as_slice().split_first() {
            Some((b'd', bytes)) => {
                line = line.saturating_add(1);
                texts.push(SourceText {
                    file: 0,
                    line,
                    bytes,
                })?;
            }
            Some((b'a', expression)) => {
                line = line.saturating_add(1);
                assumptions.push(Assumption { line, expression })?;
            }
            _ => {
                file = file.saturating_add(1);
                texts.push(SourceText {
                    file,
                    line: 1,
                    bytes: part.as_slice(),
                })?;
            }
        }
    }
    let core = Core {
        compressed: asked.contains(&b'c'),
        retirements: Retirements::One,
    };
    let probes = Probes {
        imem: asked.contains(&b'i'),
        dmem: asked.contains(&b'd'),
    };
    let channels = if asked.contains(&b'2') { 2 } else { 1 };
    let factors = factors(alloc, asked)?;
    match load(
        alloc,
        core,
        texts.as_slice(),
        assumptions.as_slice(),
        channels,
        probes,
        factors.as_slice(),
    ) {
        Ok(found) => loaded(alloc, &found),
        Err(fault) => refusal(alloc, &fault),
    }
}

/// The answer to the case of a line.
pub fn answer(alloc: Global, line: &str) -> Result<String> {
    let (asked, text) = line.split_once(' ').unwrap_or((line, ""));
    let parts = parts(alloc, text.as_bytes())?;
    answer_texts(alloc, asked.as_bytes(), parts.as_slice())
}
