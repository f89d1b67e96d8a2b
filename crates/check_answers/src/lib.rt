//! Cases of instructions and of the properties of checks. A case is a line. Words are `name=number`, of decimal digits
//! or, behind `0x`, hexadecimal ones; what isn't there is 0.
//!
//! | line | what is answered |
//! |---|---|
//! | `KIND` of a check, its row, channel and cycles, then the retirements | whether it `holds` or `fails` |
//! | `effect insn=N` and the sources | the name of the row that it matches, and what it does, but not what is 0 |
//! | `agree insn=N` and the sources, then a retirement | whether it `agrees` with what the word does, or `differs` |
//! | `word insn=N`, `number row=N` | the name of the row that the word matches, or that has the number |
//! | `match row=N insn=N` | whether the word `matches` the row, or `another` one |
//! | `expand half=N` | the word that the half word stands for |
//! | `hit` with a row, channel and cycle, or `any` with a cycle, and retirements | whether it is shown `reached` |
//!
//! A check is judged by its property, and by its monitor in a net whose inputs play the run. Where these differ, both
//! answers are given. Where a check has no monitor (it isn't lawful) its property alone is judged. Where a number has
//! more bits than its field, `no net` is answered. A run has two channels where `nret=2` or channel 1 is named.
//!
//! Each retirement stands behind a `|`; those of a check have their cycle and channel, and are in order. With `idle=1`
//! nothing retires, but the fields are shown, with `rvfi_valid` 0. Instructions are those of the letters `isa=i`, `im`
//! or `ic`, or of all; memory is `aligned=1`, or not; with `c=1` jumps reach half words; with `altops=1` M is by this
//! project's alternative operations.
//!
//! This crate says what the crates under it answer, and promises nothing of its own.
#![tactic(auto)]

mod insn;
mod lawful;
mod line;
mod play;
mod port;
mod reach;
mod run;

use crate::play::{Said, monitored};
use crate::run::Run;
use anyhow::Result;
use ck_props::holds;
use std::alloc::Global;

/// The answer to the case of a line, as the table has it; `no check` where its first word names none.
pub fn answer(alloc: Global, line: &str) -> Result<String> {
    let (head, rest) = line.split_once('|').unwrap_or((line, ""));
    let (word, _) = head.split_once(' ').unwrap_or((head, ""));
    let said = match word {
        "effect" => return insn::effect_text(alloc, head),
        "expand" => return insn::expansion(alloc, head),
        "agree" => insn::agreement(head, rest),
        "word" => insn::row(head),
        "number" => insn::name(head),
        "match" => insn::is_of_row(head),
        "hit" => reach::hit(alloc, head, rest)?,
        "any" => reach::any(alloc, head, rest)?,
        _ => judged(alloc, head, rest)?,
    };
    Ok(String::from_str(alloc, said)?)
}

/// Whether the property of the check holds of the run, and what its monitor says where that is another thing.
fn judged(alloc: Global, head: &str, rest: &str) -> Result<&'static str> {
    let Some(check) = line::check(alloc, head)? else {
        return Ok("no check");
    };
    let run = Run::of(alloc, head, rest)?;
    let opts = line::opts(head);
    let said = monitored(alloc, &check, &run, opts)?;
    let holds = holds(&check, run.retires.as_slice(), &run.probe, opts);
    Ok(match (holds, said) {
        (_, Said::NoNet) => "no net",
        (true, Said::Fails) => "holds, monitor fails",
        (false, Said::Holds) => "fails, monitor holds",
        (true, _) => "holds",
        (false, _) => "fails",
    })
}
