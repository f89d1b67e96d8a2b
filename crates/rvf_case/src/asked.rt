//! What is asked of the text of a kind.

ghost use Rattle.std.specs.Prelude.{◌≡◌, ◌<◌, ◌&&◌, map, length, IfOk};
ghost use Rattle.std.specs.List.{AllByRecursion};
ghost use Rattle.ck_cfg.specs.Kind.{is_kind};
ghost use Rattle.ck_ask.specs.Asked.{IsQuestion};
ghost use Rattle.vl_text.specs.Texts.{lines_seen, texts_seen};
ghost use Rattle.rvf_case.specs.Steps.{IsNameAt, has_asking, kept_for};
ghost use Rattle.rvf_case.specs.Texts.{core_of, factors_of, is_same_text, line_text, lines_for, probes_for};
ghost use Rattle.rvf_case.specs.Texts.{retirements_of, texts_for, with_text};

use crate::same::is_same_text;
use ck_ask::Question;
use ck_cfg::{Check, CheckKind, Config};
use fv_text::{Memory, Text};
use rv_table::Isa;
use rvf_load::Probes;
use std::alloc::Global;
use vl_text::{Assumption, Core, Retirements, SourceText};

/// The core whose macros are predefined, where there are so many channels.
pub(crate) fn core_of(isa: Isa, channels: u32) -> Core
    ensures { result ≡ core_of isa channels }
{
    Core {
        compressed: isa.c,
        retirements: retirements_of(channels),
    }
}

/// How many instructions may retire in one cycle, where there are so many channels.
fn retirements_of(channels: u32) -> Retirements
    ensures { result ≡ retirements_of channels }
{
    if channels == 2 {
        Retirements::Two
    } else {
        Retirements::One
    }
}

/// The lines of the configuration that stand in front of the files, for the checks of a kind.
fn lines_for<'a>(
    alloc: Global,
    config: &'a Config,
    kind: CheckKind,
) -> Result<Vec<SourceText<'a>>, Memory>
    ensures { IfOk result (λ lines. texts_seen lines.items ≡ map line_text (lines_for config.now kind)) }
{
    let mut lines = Vec::new(alloc);
    for piece in config.defines.as_slice() {
        lines.push(SourceText {
            file: 0,
            line: piece.line,
            bytes: piece.text.bytes(),
        })?;
    }
    for define in config.kind_defines.as_slice() {
        if define.kind.is(kind) {
            lines.push(SourceText {
                file: 0,
                line: define.piece.line,
                bytes: define.piece.text.bytes(),
            })?;
        }
    }
    Ok(lines)
}

/// The texts of a kind: its lines of the configuration, and then the files.
pub(crate) fn texts_for<'a>(
    alloc: Global,
    config: &'a Config,
    files: &'a [Text],
    kind: CheckKind,
) -> Result<Vec<SourceText<'a>>, Memory>
    ensures { IfOk result (λ texts. texts_seen texts.items ≡ texts_for config.now files.now kind) }
{
    let mut texts = lines_for(alloc, config, kind)?;
    let mut number: u32 = 1;
    for file in files {
        texts.push(SourceText {
            file: number,
            line: 1,
            bytes: file.bytes(),
        })?;
        number = number.saturating_add(1);
    }
    Ok(texts)
}

/// The assumptions of a configuration.
pub(crate) fn assumptions(alloc: Global, config: &Config) -> Result<Vec<Assumption<'_>>, Memory>
    ensures { IfOk result (λ lines. lines_seen lines.items ≡ map line_text config.now.assumes) }
{
    let mut lines = Vec::new(alloc);
    for piece in config.assumes.as_slice() {
        lines.push(Assumption {
            line: piece.line,
            expression: piece.text.bytes(),
        })?;
    }
    Ok(lines)
}

/// Whether a check is of the wanted kind, and has the text of a kind.
fn asks(config: &Config, check: &Check, kind: CheckKind, wanted: CheckKind) -> bool
    ensures { result ≡ (is_kind check.now.kind wanted && is_same_text config.now kind check.now.kind) }
{
    check.kind.is(wanted) && is_same_text(config, kind, check.kind)
}

/// Whether one of these checks is of the wanted kind, and has the text of a kind.
fn has_asking(config: &Config, checks: &[Check], kind: CheckKind, wanted: CheckKind) -> bool
    ensures { result ≡ has_asking config.now kind wanted checks.now }
{
    checks.iter().any(|check| asks(config, check, kind, wanted))
}

/// The probes that the checks with the text of a kind ask for.
pub(crate) fn probes_for(config: &Config, checks: &[Check], kind: CheckKind) -> Probes
    ensures { result ≡ probes_for (kept_for config.now kind checks.now) }
{
    Probes {
        imem: has_asking(config, checks, kind, CheckKind::Imem),
        dmem: has_asking(config, checks, kind, CheckKind::Dmem),
    }
}

/// By what the weight of the design is multiplied: one more than the last cycle of each question that has the text of a
/// kind.
#[tactic(auto, using(ck_ask::proofs::Lawful::not_late))]
pub(crate) fn factors_for(
    alloc: Global,
    config: &Config,
    questions: &[Question],
    kind: CheckKind,
) -> Result<Vec<u32>, Memory>
    requires { AllByRecursion (IsQuestion config.now.nret) questions.now }
    ensures { IfOk result (λ factors. factors.items ≡ factors_of (with_text config.now kind questions.now)) }
{
    let mut factors = Vec::new(alloc);
    for question in questions {
        if is_same_text(config, kind, question.kind()) {
            factors.push(question.cycle() + 1)?;
        }
    }
    Ok(factors)
}

/// The name of the question at a place, from 0 on, among those that have the text of a kind.
pub(crate) fn name_at(
    alloc: Global,
    config: &Config,
    questions: &[Question],
    kind: CheckKind,
    place: u32,
) -> Result<Text, Memory>
    requires { place < length (with_text config.now kind questions.now) }
    ensures { IfOk result (λ name. IsNameAt (with_text config.now kind questions.now) place name) }
{
    let mut left = place;
    for question in questions {
        if is_same_text(config, kind, question.kind()) {
            if left == 0 {
                return question.name().copied(alloc);
            }
            left -= 1;
        }
    }
    unreachable!()
}
