ghost use Rattle.std.specs.Prelude.{◌≡◌, ◌≤◌, ◌||◌, IfSome, option_map};
ghost use Rattle.fv_lines.specs.Words.{words, begins_with, is_nil};
ghost use Rattle.cnf_text.specs.Dimacs.{is_comment, header_of};

use fv_lines::{next_word, number_up_to};

/// A header names no more variables or clauses.
const MOST_NAMED: u64 = 100000000;

/// How many variables and clauses a header names.
#[derive(Clone, Copy)]
pub(crate) struct Sizes {
    pub vars: u64,
    pub count: u64,
}

impl Sizes {
    ghost use Rattle.cnf_text.specs.Bodies.{sizes_of};

    /// The sizes that a header names, `p cnf VARIABLES CLAUSES`.
    pub(crate) fn of(line: &[u8]) -> Option<Sizes>
        ensures value { option_map sizes_of result ≡ header_of (words line.now) }
        ensures within { IfSome result (λ s. s.vars ≤ 100000000) }
    {
        let (first, rest) = next_word(line)?;
        let (form, rest) = next_word(rest)?;
        let (vars, rest) = next_word(rest)?;
        let (count, rest) = next_word(rest)?;
        if next_word(rest).is_some() || first != b"p".as_slice() || form != b"cnf".as_slice() {
            return None;
        }
        let vars = number_up_to(vars, MOST_NAMED)?;
        let count = number_up_to(count, MOST_NAMED)?;
        Some(Sizes { vars, count })
    }
}

/// Whether the line's first word begins with `c`.
pub(crate) fn is_comment(line: &[u8]) -> bool
    ensures { result ≡ is_comment (words line.now) }
{
    match next_word(line) {
        None => false,
        Some((word, _)) => begins_comment(word),
    }
}

/// Whether the line is blank or a comment.
pub(crate) fn is_skipped(line: &[u8]) -> bool
    ensures { result ≡ (is_nil (words line.now) || is_comment (words line.now)) }
{
    match next_word(line) {
        None => true,
        Some((word, _)) => begins_comment(word),
    }
}

fn begins_comment(word: &[u8]) -> bool
    ensures { result ≡ begins_with 99 word.now }
{
    match word {
        [first, ..] => *first == b'c',
        [] => false,
    }
}
