//! Which texts are one.

ghost use Rattle.std.specs.Prelude.{◌≡◌, ◌<◌, ◌∷◌, [], length, IfOk, IfSome, MatchOption};
ghost use Rattle.rvf_case.specs.Steps.{has_same, kind_lines};
ghost use Rattle.rvf_case.specs.Texts.{is_same_text, leaders_behind};

use ck_ask::Question;
use ck_cfg::{CheckKind, Config, KindPiece};
use fv_text::Memory;
use std::alloc::Global;

/// The first of these lines that is for a kind, with the lines behind it.
fn next_line(lines: &[KindPiece], kind: CheckKind) -> Option<(&[u8], &[KindPiece])>
    ensures lines { MatchOption result (kind_lines lines.now kind ≡ [])
        (λ r. kind_lines lines.now kind ≡ r.0.now ∷ kind_lines r.1.now kind) }
    ensures shorter { IfSome result (λ r. length r.1.now < length lines.now) }
{
    for (index, line) in lines.iter().enumerate() {
        if line.kind.is(kind) {
            return Some((line.piece.text.bytes(), &lines[index + 1..]));
        }
    }
    None
}

/// Whether the checks of two kinds have the same lines in front of the files. The lines for all checks are the same
/// for both.
pub(crate) fn is_same_text(config: &Config, kind: CheckKind, other: CheckKind) -> bool
    ensures { result ≡ is_same_text config.now kind other }
{
    let mut left = config.kind_defines.as_slice();
    let mut right = left;
    while let Some((line, behind)) = next_line(left, kind) {
        let Some((other_line, other_behind)) = next_line(right, other) else {
            return false;
        };
        if line != other_line {
            return false;
        }
        left = behind;
        right = other_behind;
    }
    next_line(right, other).is_none()
}

/// Whether one of these kinds has the text of another one.
fn has_same(config: &Config, kinds: &[CheckKind], kind: CheckKind) -> bool
    ensures { result ≡ has_same config.now kinds.now kind }
{
    kinds.iter().any(|k| is_same_text(config, *k, kind))
}

/// Of each text of these questions the kind of the first one.
pub(crate) fn leaders(
    alloc: Global,
    config: &Config,
    questions: &[Question],
) -> Result<Vec<CheckKind>, Memory>
    ensures { IfOk result (λ kinds. kinds.items ≡ leaders_behind config.now [] questions.now) }
{
    let mut kinds = Vec::new(alloc);
    for question in questions {
        let kind = question.kind();
        if !has_same(config, kinds.as_slice(), kind) {
            kinds.push(kind)?;
        }
    }
    Ok(kinds)
}
