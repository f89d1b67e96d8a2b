//! Cases of designs, one a line of standard input, as `design_answers` reads them. A line `== KIND` says of what the
//! lines behind it are cases: `elab`, `flow`, `lower` or `load`; it is answered by itself, and each case by a line.
//! Blank lines, and those that begin with `#`, are no cases.
#![tactic(auto)]

use anyhow::{Context, Result};
use design_answers::{elab, flow, load, lower};
use std::alloc::Global;

/// What a line is a case of.
#[derive(Clone, Copy)]
enum Kind {
    Elab,
    Flow,
    Lower,
    Load,
}

impl Kind {
    fn named(name: &str) -> Option<Kind> {
        match name {
            "elab" => Some(Kind::Elab),
            "flow" => Some(Kind::Flow),
            "lower" => Some(Kind::Lower),
            "load" => Some(Kind::Load),
            _ => None,
        }
    }

    fn answer(self, alloc: Global, line: &str) -> Result<String> {
        match self {
            Kind::Elab => elab::answer(alloc, line),
            Kind::Flow => flow::answer(alloc, line),
            Kind::Lower => lower::answer(alloc, line),
            Kind::Load => load::answer(alloc, line),
        }
    }
}

fn main(rt: HostRuntime) -> Result<()> {
    let alloc = rt.alloc();
    let mut kind = None;
    for line in rt.lines(alloc) {
        let line = line?;
        if let Some(name) = line.strip_prefix("== ") {
            kind = Some(Kind::named(name).context("a heading without a kind")?);
            println!(rt; "{line}")?;
        } else if !line.is_empty() && !line.starts_with('#') {
            let kind = kind.context("a case without a heading")?;
            println!(rt; "{}", kind.answer(alloc, line.as_str())?)?;
        }
    }
    Ok(())
}
