//! Cases of cubes: searches that are split, and what a cube leaves of a formula. This crate says what the crates under
//! it answer, and promises nothing of its own.
#![tactic(auto)]

mod found;
mod left;
mod numbers;

use certificate_answers::{parted, read_escaped};
use fv_text::Memory;
use std::alloc::Global;
use std::thread::Threads;

/// The answer to a case, which a word at its beginning names.
pub fn answer<R: Threads + Sync>(rt: &R, alloc: Global, line: &str) -> Result<String, Memory> {
    let mut out = String::new(alloc);
    match line.split_once(' ') {
        Some((word, text)) => {
            let text = read_escaped(alloc, text)?;
            put(rt, alloc, &mut out, word, text.as_slice())?;
        }
        None => out.push_str("no case")?,
    }
    Ok(out)
}

fn put<R: Threads + Sync>(
    rt: &R,
    alloc: Global,
    out: &mut String,
    word: &str,
    text: &[u8],
) -> Result<(), Memory> {
    let (first, rest) = parted(text);
    match word {
        "cubes" => found::put_found(rt, alloc, out, first, rest),
        "adds" => found::put_added(rt, alloc, out, first, rest),
        "restrict" => left::put_left(alloc, out, first, rest),
        _ => Ok(out.push_str("no case")?),
    }
}
