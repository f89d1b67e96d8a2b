//! What a line says of the output or of a gate.
ghost use Rattle.std.specs.Prelude.{◌≡◌, ◌∷◌, ◌<◌, ◌^◌, [], MatchOption};
ghost use Rattle.aiger_text.specs.Lines.{words};
ghost use Rattle.aiger_text.specs.Said as spec;
ghost use Rattle.aiger_text.specs.Bodies.{AreNotThree};

use crate::number::literal;
use fv_lines::cut_at;

/// The output, and its line.
#[derive(Debug, Clone, Copy)]
pub(crate) struct Output {
    pub line: u32,
    pub literal: u128,
}

/// The literal that a line defines, and its operands.
#[derive(Debug, Clone, Copy)]
pub(crate) struct Gate {
    pub line: u32,
    pub literal: u128,
    pub left: u128,
    pub right: u128,
}

/// A literal that a line may define: even, and not 0.
#[tactic(auto, using(crate::proofs::GateLaws::no_defined, crate::proofs::GateLaws::defined))]
pub(crate) fn defined_literal(word: &[u8], most: u128) -> Option<u128>
    requires { most < 10 ^ 20 }
    ensures { result ≡ spec.defined_literal most word.now }
{
    let literal = literal(word, most)?;
    if literal % 2 == 0 && literal != 0 {
        Some(literal)
    } else {
        None
    }
}

/// The words of a line, if it has three.
#[tactic(auto, using(crate::proofs::LineLaws::one_word, crate::proofs::LineLaws::two_words, crate::proofs::LineLaws::more_words, crate::proofs::LineLaws::three_words))]
fn three_words(text: &[u8]) -> Option<(&[u8], &[u8], &[u8])>
    ensures { MatchOption result (AreNotThree (words text.now))
        (λ ws. words text.now ≡ ws.0.now ∷ ws.1.now ∷ ws.2.now ∷ []) }
{
    let (first, rest) = cut_at(text, b' ')?;
    let (second, third) = cut_at(rest, b' ')?;
    match cut_at(third, b' ') {
        Some(_) => None,
        None => Some((first, second, third)),
    }
}

/// What the line of a gate says.
#[tactic(auto, using(crate::proofs::GateLaws::not_three, crate::proofs::GateLaws::no_literal, crate::proofs::GateLaws::no_left, crate::proofs::GateLaws::no_right, crate::proofs::GateLaws::all_three))]
pub(crate) fn gate_of(text: &[u8], most: u128, line: u32) -> Option<Gate>
    requires { most < 10 ^ 20 }
    ensures { result ≡ spec.gate_of most line (words text.now) }
{
    let (defined, left, right) = three_words(text)?;
    let defined = defined_literal(defined, most)?;
    let left = literal(left, most)?;
    let right = literal(right, most)?;
    Some(Gate {
        line,
        literal: defined,
        left,
        right,
    })
}
