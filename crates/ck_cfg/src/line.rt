//! What stands in a line.

ghost use Rattle.std.specs.Prelude.{◌≡◌, option_map};
ghost use Rattle.ck_cfg.specs.Line.{front_trimmed, end_trimmed, trimmed, is_dropped, before_bracket, section_begun};

use fv_lines::is_blank;

/// The line without the blanks at both ends.
pub(crate) fn trimmed(line: &[u8]) -> &[u8]
    ensures { result.now ≡ trimmed line.now }
{
    end_trimmed(front_trimmed(line))
}

fn front_trimmed(line: &[u8]) -> &[u8]
    ensures { result.now ≡ front_trimmed line.now }
{
    let mut rest = line;
    while let [first, behind @ ..] = rest
        && is_blank(*first)
    {
        rest = behind;
    }
    rest
}

fn end_trimmed(line: &[u8]) -> &[u8]
    ensures { result.now ≡ end_trimmed line.now }
{
    let mut rest = line;
    while let [before @ .., last] = rest
        && is_blank(*last)
    {
        rest = before;
    }
    rest
}

/// Whether the line is empty, or a comment.
pub(crate) fn is_dropped(text: &[u8]) -> bool
    ensures { result ≡ is_dropped text.now }
{
    match text {
        [] => true,
        [first, ..] => *first == b'#',
    }
}

/// The name of the section that the line begins, if it begins one.
pub(crate) fn section_begun(text: &[u8]) -> Option<&[u8]>
    ensures { option_map (λ name. name.now) result ≡ section_begun text.now }
{
    match text {
        [b'[', rest @ ..] => before_bracket(rest),
        _ => None,
    }
}

/// What stands before a `]` at the end.
fn before_bracket(text: &[u8]) -> Option<&[u8]>
    ensures { option_map (λ name. name.now) result ≡ before_bracket text.now }
{
    match text {
        [] => None,
        [name @ .., last] => { if *last == b']' { Some(name) } else { None } }
    }
}
