//! Cases of files and of command lines, one a line of standard input, as `file_answers` reads them. A line `== KIND`
//! says of what the lines behind it are cases: `file` for configurations, clause files, proofs, searches, value-change
//! dumps and graphs, or `words`; it is answered by itself, and each case by a line. Lines that begin with `#` are no
//! cases, nor are blank ones but for `words`.
#![tactic(auto)]

use anyhow::{Context, Result};
use file_answers::{answer, words};
use fv_text::Memory;
use std::alloc::Global;

/// What a line is a case of.
#[derive(Clone, Copy)]
enum Kind {
    File,
    Words,
}

impl Kind {
    fn named(name: &str) -> Option<Kind> {
        match name {
            "file" => Some(Kind::File),
            "words" => Some(Kind::Words),
            _ => None,
        }
    }

    /// The answer to a line, if it is a case. A blank one is a command line without words, and no other case.
    fn answer(self, alloc: Global, line: &str) -> Result<Option<String>, Memory> {
        if line.starts_with('#') {
            return Ok(None);
        }
        match self {
            Kind::File if line.is_empty() => Ok(None),
            Kind::File => Ok(Some(answer(alloc, line)?)),
            Kind::Words => Ok(Some(words::answer(alloc, line)?)),
        }
    }
}

fn main(rt: HostRuntime) -> Result<()> {
    let alloc = rt.alloc();
    let mut kind = None;
    for line in rt.lines(alloc) {
        let line = line?;
        if let Some(name) = line.strip_prefix("== ") {
            kind = Some(Kind::named(name).context("a heading without a kind")?);
            println!(rt; "{line}")?;
        } else {
            let kind = kind.context("a case without a heading")?;
            if let Some(answer) = kind.answer(alloc, line.as_str())? {
                println!(rt; "{answer}")?;
            }
        }
    }
    Ok(())
}
