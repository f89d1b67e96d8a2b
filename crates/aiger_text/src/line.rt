//! Lines and words.
ghost use Rattle.std.specs.Prelude.{◌≡◌, ◌<◌, ◌∷◌, length};
ghost use Rattle.aiger_text.specs.Lines.{lines};

use fv_lines::cut_at;

/// The first line, without its end, and what stands behind it.
#[tactic(auto, using(crate::proofs::LineLaws::line_cut, crate::proofs::LineLaws::line_last, crate::proofs::LineLaws::cut_shorter))]
pub(crate) fn next_line(text: &[u8]) -> (&[u8], &[u8])
    requires { 0 < length text.now }
    ensures lines { lines text.now ≡ result.0.now ∷ lines result.1.now }
    ensures shorter { length result.1.now < length text.now }
{
    match cut_at(text, b'\n') {
        Some((line, behind)) => (line, behind),
        None => (text, &[]),
    }
}
