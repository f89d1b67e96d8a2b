//! Cases of Verilog texts. A case is a line: the first word says what is asked, and behind it stand the texts, as
//! `parts.rt` reads them.
//!
//! | word | behind it | what is answered |
//! |---|---|---|
//! | `tokens` | a text | its tokens |
//! | `prepare` | a text | what it comes to behind a macro `one`, which stands for `1` |
//! | `files` | configuration lines, then a text for each file | what they come to |
//! | `defined` | a text, then names | which of the names are macros behind the text |
//! | `predefined`, `compressed` | a text | how many tokens it comes to by the macros that are predefined without C,
//! or with it, and the first one |
//! | `parse` | a text | `ok`, or the refusal |
//! | `items` | items of a module, which stand on its second line | the same |
//! | `nest` | a count, a front, what opens, the middle, what closes, and the end of such items | the same |
//! | `shape` | a text | ports and items of its first module |
//! | `source` | texts, as `source.rt` reads them | names and shapes of all modules, and options that are defined |
//! | `lexed` | a count | how many tokens so many semicolons are |
//! | `tower`, `towers` | a count and a text | what so many macros come to, each of which uses the one before once, or
//! twice |
//! | `room` | a count | what so many tokens behind 1,999,999 others come to |
//!
//! This crate says what the crates under it answer, and promises nothing of its own.
#![tactic(auto)]

mod large;
mod parts;
mod shape;
mod shown;
mod source;
mod text;

use anyhow::Result;
use std::alloc::{AllocError, Global};

/// The answer to the case of a line. An error is want of memory, or a refusal where the table names none.
pub fn answer(alloc: Global, line: &str) -> Result<String> {
    let (word, rest) = line.split_once(' ').unwrap_or((line, ""));
    let parts = parts::parts(alloc, rest.as_bytes())?;
    let mut out = String::new(alloc);
    answer_word(alloc, &mut out, word, parts.as_slice())?;
    Ok(out)
}

/// Writes what the word asks of the texts. It owns nothing, so that none of its arms has to drop anything.
fn answer_word(alloc: Global, out: &mut String, word: &str, parts: &[Vec<u8>]) -> Result<()> {
    let text = first(parts);
    match word {
        "prepare" => text::prepared(alloc, out, text),
        "files" => text::files(alloc, out, parts),
        "defined" => text::defined(alloc, out, parts),
        "predefined" => text::predefined(alloc, out, false, text),
        "compressed" => text::predefined(alloc, out, true, text),
        "shape" => text::shape(alloc, out, text),
        "tower" => large::tower(alloc, out, parts, false),
        "towers" => large::tower(alloc, out, parts, true),
        "room" => large::room(alloc, out, text),
        _ => Ok(answer_each(alloc, out, word, parts)?),
    }
}

/// The words that answer each refusal, and fail for want of memory alone.
fn answer_each(
    alloc: Global,
    out: &mut String,
    word: &str,
    parts: &[Vec<u8>],
) -> Result<(), AllocError> {
    let text = first(parts);
    match word {
        "tokens" => text::tokens(alloc, out, text),
        "parse" => text::parsed(alloc, out, text),
        "items" => text::items(alloc, out, text),
        "nest" => large::nest(alloc, out, parts),
        "source" => source::read(alloc, out, parts),
        "lexed" => large::lexed(alloc, out, text),
        _ => out.push_str("no such word"),
    }
}

/// The first part, or the empty text.
fn first(parts: &[Vec<u8>]) -> &[u8] {
    match parts.get(0) {
        Some(part) => part.as_slice(),
        None => b"",
    }
}
