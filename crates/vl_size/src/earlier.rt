//! Which of two places in a text comes first.
ghost use Rattle.std.specs.Prelude.{◌≡◌};
ghost use Rattle.vl_size.specs.Places as spec;

use fv_text::Pos;

/// By file, then line, then column.
pub fn is_earlier(p: Pos, q: Pos) -> bool
    ensures { result ≡ spec.is_earlier p q }
{
    if p.file != q.file {
        return p.file < q.file;
    }
    if p.line != q.line {
        return p.line < q.line;
    }
    p.col < q.col
}

/// The earlier of two places that may be there; of two alike the first.
pub fn earlier_place(first: Option<Pos>, second: Option<Pos>) -> Option<Pos>
    ensures { result ≡ spec.earlier_place first second }
{
    match (first, second) {
        (None, second) => second,
        (Some(first), None) => Some(first),
        (Some(first), Some(second)) => if is_earlier(second, first) {
            Some(second)
        } else {
            Some(first)
        },
    }
}
