//! What a line of the cases asks.

/// A line of the cases, by its first word.
#[derive(Clone, Copy)]
pub(crate) enum Line<'a> {
    /// `names ITEMS`: declarations and parameters, in place of those before.
    Names(&'a str),
    /// `count N`: N scalars `n0`, `n1` and so on are declared, in place of the names before.
    Count(u32),
    /// `find NAME`: the place of the name among the declared ones.
    Find(&'a str),
    /// `set NAME EXPR`: the number of a name, or of a memory's word by its printed name.
    Set(&'a str, &'a str),
    /// `size EXPR`: size and sign by itself.
    Size(&'a str),
    /// `into W EXPR`: what a target of W bits gets.
    Into(u32, &'a str),
    /// `constant EXPR`: its value over the parameters, or why it is none.
    Constant(&'a str),
    /// A directive of the preprocessor.
    Directive(&'a str),
}

/// The first word, and what stands behind it.
fn first_word(text: &str) -> (&str, &str) {
    text.split_once(' ').unwrap_or((text, ""))
}

/// The number that the text is, 0 where it is none.
fn number(text: &str) -> u32 {
    text.parse::<u32>().unwrap_or(0)
}

/// What the line asks, or None where it begins with no such word and says nothing.
pub(crate) fn line_of(text: &str) -> Option<Line<'_>> {
    let (word, rest) = first_word(text);
    let (next, last) = first_word(rest);
    match word {
        "names" => Some(Line::Names(rest)),
        "count" => Some(Line::Count(number(rest))),
        "find" => Some(Line::Find(rest)),
        "set" => Some(Line::Set(next, last)),
        "size" => Some(Line::Size(rest)),
        "into" => Some(Line::Into(number(next), last)),
        "constant" => Some(Line::Constant(rest)),
        "`define" => Some(Line::Directive(text)),
        _ => None,
    }
}
