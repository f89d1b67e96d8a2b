//! The texts of certificates.

ghost use Rattle.std.specs.Prelude.{◌≡◌, ◌<◌, ◌^◌, map, IfOk};
ghost use Rattle.cnf_text.specs.Dimacs.{HaveNoEnd, dimacs_text};
ghost use Rattle.lrat_check.specs.Texts.{lrat_text};
ghost use Rattle.vl_lower_spec.specs.Graphic.{AreGraphic};
ghost use Rattle.ck_ask.specs.Questions.{question_channel, question_cycle};
ghost use Rattle.ck_design.specs.Notes.{choice_notes, notes_of};
ghost use Rattle.rvf_judge.specs.Lines as lines;
ghost use Rattle.rvf_judge.specs.JudgeParts.{AreReadBack};
ghost use Rattle.rvf_judge.specs.Judged.{AreTexts};

use crate::choice::choice_notes;
use crate::judged::CertificateTexts;
use crate::line::note_text;
use crate::notes::notes_of;
use bm_decide::Certificate;
use ck_ask::Question;
use ck_design::Note;
use cnf_text::dimacs;
use fv_text::{List, Memory, Text};
use lrat_check::lrat;
use std::alloc::Global;
use wn_net::Names;

/// A line for each note.
#[tactic(auto, using(crate::proofs::JudgeLines::lines_step, crate::proofs::JudgeLines::lines_end))]
fn note_texts(alloc: Global, notes: &[Note]) -> Result<List<Text>, Memory>
    ensures { IfOk result (λ made. made ≡ map lines.note_text notes.now) }
{
    let mut made = List::new(alloc);
    for note in notes {
        let text = note_text(alloc, note)?;
        made.push(text)?;
    }
    Ok(made)
}

/// The texts of a certificate, with these lines as notes.
fn written(
    alloc: Global,
    certificate: &Certificate,
    lines: &[Text],
) -> Result<CertificateTexts, Memory>
    ensures texts { IfOk result (λ texts. texts ≡ record {
      clauses = dimacs_text lines.now certificate.now.formula;
      steps = lrat_text certificate.now.steps;
    }) }
    ensures read_back { IfOk result (λ texts. HaveNoEnd lines.now
        → AreReadBack certificate.now.formula certificate.now.steps texts) }
{
    let clauses = dimacs(alloc, &certificate.formula, lines)?;
    let steps = lrat(alloc, certificate.steps.as_slice())?;
    Ok(CertificateTexts {
        clauses: Text::from_vec(clauses),
        steps: Text::from_vec(steps),
    })
}

/// The texts of a certificate, with a note for each placed bit of a choice, and for each bit of each field of the
/// question's channel in its cycle. Within the limits of the formats they are read back.
pub(crate) fn texts_of(
    alloc: Global,
    names: &Names,
    question: &Question,
    certificate: &Certificate,
) -> Result<CertificateTexts, Memory>
    requires channel { question_channel question.now < 2 ^ 26 }
    requires graphic { AreGraphic names.now }
    ensures texts { IfOk result (AreTexts (notes_of names.now certificate.now.bits (question_channel question.now)
        (question_cycle question.now) certificate.now.fields) certificate.now.formula certificate.now.steps) }
    ensures read_back { IfOk result (AreReadBack certificate.now.formula certificate.now.steps) }
{
    let fields = certificate.fields.as_slice();
    let notes = notes_of(
        alloc,
        names,
        &certificate.bits,
        fields,
        question.channel(),
        question.cycle(),
    )?;
    let lines = note_texts(alloc, notes.as_slice())?;
    written(alloc, certificate, lines.as_slice())
}

/// The texts of a certificate of one half of an induction, with a note for each placed bit of a choice. Within the
/// limits of the formats they are read back.
pub(crate) fn half_texts(
    alloc: Global,
    names: &Names,
    certificate: &Certificate,
) -> Result<CertificateTexts, Memory>
    requires graphic { AreGraphic names.now }
    ensures texts { IfOk result (AreTexts (choice_notes names.now certificate.now.bits) certificate.now.formula
        certificate.now.steps) }
    ensures read_back { IfOk result (AreReadBack certificate.now.formula certificate.now.steps) }
{
    let bits = &certificate.bits;
    let notes = choice_notes(
        alloc,
        names,
        bits.sources.as_slice(),
        bits.places.as_slice(),
    )?;
    let lines = note_texts(alloc, notes.as_slice())?;
    written(alloc, certificate, lines.as_slice())
}
