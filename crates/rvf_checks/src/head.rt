//! What is delivered before the checks.

ghost use Rattle.std.specs.Prelude.{◌≡◌, ◌++◌, IfOk, OnOk, false, if◌then◌else◌};
ghost use Rattle.ck_ask.specs.Questions.{question_kind};
ghost use Rattle.ck_cfg.specs.Kind.{is_kind};
ghost use Rattle.ck_cfg.specs.declared.kind.CheckKind.TheVariants as kinds;
ghost use Rattle.rvf_case.specs.Cases.{loaded_for};
ghost use Rattle.rvf_checks.specs.Checked as checked;

use crate::lines::{note_line, skip_line};
use crate::wording::Wording;
use ck_ask::Question;
use ck_cfg::CheckKind;
use fv_text::{List, Memory, Text};
use rvf_case::Case;
use rvf_report::Delivery;
use std::alloc::Global;

/// A check of a row has a text with other arithmetic operations.
fn has_altops(case: &Case, question: &Question) -> bool
    ensures { result ≡ (if is_kind (question_kind question.now) kinds.Insn
        then checked.has_altops (loaded_for case.now question.now) else false) }
{
    if !question.kind().is(CheckKind::Insn) {
        return false;
    }
    match case.loaded_for(question) {
        Some(loaded) => loaded.opts.altops,
        None => false,
    }
}

/// Some check of a row has a text with other arithmetic operations.
fn is_noted(case: &Case) -> bool
    ensures { result ≡ checked.is_noted case.now }
{
    case.questions
        .as_slice()
        .iter()
        .any(|question| has_altops(case, question))
}

/// The note, where there is one.
fn note_of(alloc: Global, noted: bool) -> Result<List<Delivery>, Memory>
    ensures { IfOk result (λ made. made ≡ checked.note_of noted) }
{
    let mut made = List::new(alloc);
    if noted {
        let line = note_line(alloc)?;
        made.push(Delivery::Line(line))?;
    }
    Ok(made)
}

/// A line for each depth line that is skipped, behind what is there.
#[tactic(auto, using(crate::proofs::Heads::skips_step, crate::proofs::Heads::skips_end))]
fn put_skips(made: &mut List<Delivery>, alloc: Global, words: &[Text]) -> Result<(), Memory>
    ensures { OnOk result (made.new ≡ made.old ++ checked.skips_of words.now) }
{
    for word in words {
        let line = skip_line(alloc, word.bytes())?;
        made.push(Delivery::Line(line))?;
    }
    Ok(())
}

/// The note, where a check asks for it, and then a line for each depth line that is skipped.
pub(crate) fn head(alloc: Global, case: &Case) -> Result<List<Delivery>, Memory>
    ensures { IfOk result (λ made. made ≡ checked.head (checked.is_noted case.now) case.now.config.skips) }
{
    let mut made = note_of(alloc, is_noted(case))?;
    put_skips(&mut made, alloc, case.config.skips.as_slice())?;
    Ok(made)
}

/// What is delivered before the checks, in these words.
pub(crate) fn head_in(
    alloc: Global,
    wording: Wording,
    case: &Case,
) -> Result<List<Delivery>, Memory>
    ensures { IfOk result (λ made. made
        ≡ checked.head_in wording (checked.is_noted case.now) case.now.config.skips) }
{
    match wording {
        Wording::Run => head(alloc, case),
        Wording::Bench(_) | Wording::Cover | Wording::Zb => Ok(List::new(alloc)),
    }
}
