//! Cases of Verilog texts and of what they mean, one a line of standard input. A line `== KIND` says of what the lines
//! behind it are cases: `text`, as `text_answers` reads them, or `meaning`, sizes, signs, values and constants, as
//! `meaning_answers` does. Each line is answered by a line, those that are no cases by themselves.
#![tactic(auto)]

use anyhow::{Context, Result};
use meaning_answers::Bench;
use std::alloc::Global;

/// What a line is a case of.
#[derive(Clone, Copy)]
enum Kind {
    Text,
    Meaning,
}

impl Kind {
    fn named(name: &str) -> Option<Kind> {
        match name {
            "text" => Some(Kind::Text),
            "meaning" => Some(Kind::Meaning),
            _ => None,
        }
    }

    /// The answer to a line, over the names of the lines of `meaning` before it.
    fn answer(self, alloc: Global, bench: &mut Bench, line: &str) -> Result<String> {
        match self {
            Kind::Text => text_answers::answer(alloc, line),
            Kind::Meaning => bench.answer(line),
        }
    }
}

fn main(rt: HostRuntime) -> Result<()> {
    let alloc = rt.alloc();
    let mut bench = Bench::new(alloc);
    let mut kind = None;
    for line in rt.lines(alloc) {
        let line = line?;
        if let Some(name) = line.strip_prefix("== ") {
            kind = Some(Kind::named(name).context("a heading without a kind")?);
            println!(rt; "{line}")?;
        } else {
            let kind = kind.context("a case without a heading")?;
            println!(rt; "{}", kind.answer(alloc, &mut bench, line.as_str())?)?;
        }
    }
    Ok(())
}
