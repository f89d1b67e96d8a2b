//! Cases of configurations, clause files, proofs, searches, value-change dumps and graphs. A case is a line: a word
//! that says what is tried, and a text with `\n`, `\t`, `\r`, `\\` and `\xHH` for bytes. Cases of command lines stand
//! in a module of their own. This crate says what the crates under it answer, and promises nothing of its own.
#![tactic(auto)]

mod config;
mod dump;
mod graph;
pub mod words;

use certificate_answers::read_escaped;
use fv_text::Memory;
use std::alloc::Global;

/// The answer to the case of a line; that there is no such case where its first word says none.
pub fn answer(alloc: Global, line: &str) -> Result<String, Memory> {
    let (word, rest) = match line.split_once(' ') {
        Some((word, rest)) => (word, rest),
        None => (line, ""),
    };
    let text = read_escaped(alloc, rest)?;
    let mut out = String::new(alloc);
    put(alloc, &mut out, word, text.as_slice())?;
    Ok(out)
}

fn put(alloc: Global, out: &mut String, word: &str, text: &[u8]) -> Result<(), Memory> {
    match word {
        "depth" => config::put_depth(alloc, out, text),
        "config" => config::put_reading(alloc, out, text),
        "pieces" => config::put_pieces(alloc, out, text),
        "targets" => config::put_reaching(alloc, out, text),
        "file" => config::put_file(alloc, out, text),
        "long-section" => config::put_long_section(alloc, out),
        "dump" => dump::put_reading(alloc, out, text),
        "cut-dump" => dump::put_cut(alloc, out, text),
        "graph" => graph::put_reading(alloc, out, text),
        "large-graph" => graph::put_large(alloc, out, text),
        _ => put_certificate(alloc, out, word, text),
    }
}

fn put_certificate(alloc: Global, out: &mut String, word: &str, text: &[u8]) -> Result<(), Memory> {
    match certificate_answers::answer(alloc, word, text)? {
        Some(answer) => put_text(out, answer.as_str()),
        None => put_no_case(out, word),
    }
}

fn put_text(out: &mut String, text: &str) -> Result<(), Memory> {
    out.push_str(text)?;
    Ok(())
}

fn put_no_case(out: &mut String, word: &str) -> Result<(), Memory> {
    write!(out, "no case {word:?}")?;
    Ok(())
}
