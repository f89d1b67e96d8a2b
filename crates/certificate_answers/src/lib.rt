//! Cases of clause files, proofs and searches, and bytes as the line of a case shows them. This crate says what the
//! crates under it answer, and promises nothing of its own.
#![tactic(auto)]

mod certificate;
mod escape;
mod search;
mod stored;

pub use escape::{parted, put_escaped, read_escaped};
use fv_text::Memory;
use std::alloc::Global;

/// The answer to a case that its first word names; None where there is no such case here.
pub fn answer(alloc: Global, word: &str, text: &[u8]) -> Result<Option<String>, Memory> {
    let mut out = String::new(alloc);
    let is_case = put(alloc, &mut out, word, text)?;
    Ok(if is_case { Some(out) } else { None })
}

/// Writes the answer; whether there is such a case.
fn put(alloc: Global, out: &mut String, word: &str, text: &[u8]) -> Result<bool, Memory> {
    match word {
        "proof" => certificate::put_judged(alloc, out, text)?,
        "cut-proof" => certificate::put_cut(alloc, out, text)?,
        "many-ids" => certificate::put_many_ids(alloc, out)?,
        "again" => certificate::put_again(alloc, out, text)?,
        "formula" => certificate::put_held(alloc, out)?,
        "store" => certificate::put_stored(alloc, out)?,
        "many-stored" => stored::put_many(alloc, out)?,
        "search" => search::put_found(alloc, out, text)?,
        "guess" => search::put_guessed(alloc, out, text)?,
        "random" => search::put_random(alloc, out, text)?,
        _ => return Ok(false),
    }
    Ok(true)
}
