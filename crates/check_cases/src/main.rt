//! Cases of instructions, checks, ports and nets, one a line of standard input. A line `== KIND` says of what the lines
//! behind it are cases: `check`, as `check_answers` reads them, `circuit` or `port`, as `channel_answers` does, or
//! `net`, as `net_answers` does; it is answered by itself, and each case by a line. Blank lines, and those that begin
//! with `#`, are no cases.
#![tactic(auto)]

use anyhow::{Context, Result};
use channel_answers::{circuit, port};
use std::alloc::Global;

/// What a line is a case of.
#[derive(Clone, Copy)]
enum Kind {
    Check,
    Circuit,
    Port,
    Net,
}

impl Kind {
    fn named(name: &str) -> Option<Kind> {
        match name {
            "check" => Some(Kind::Check),
            "circuit" => Some(Kind::Circuit),
            "port" => Some(Kind::Port),
            "net" => Some(Kind::Net),
            _ => None,
        }
    }

    fn answer(self, alloc: Global, line: &str) -> Result<String> {
        match self {
            Kind::Check => check_answers::answer(alloc, line),
            Kind::Circuit => Ok(circuit::answer(alloc, line)?),
            Kind::Port => Ok(port::answer(alloc, line)?),
            Kind::Net => net_answers::answer(alloc, line),
        }
    }
}

fn main(rt: HostRuntime) -> Result<()> {
    let alloc = rt.alloc();
    let mut kind = None;
    for line in rt.lines(alloc) {
        let line = line?;
        if let Some(name) = line.strip_prefix("== ") {
            kind = Some(Kind::named(name).context("a heading without a kind")?);
            println!(rt; "{line}")?;
        } else if !line.is_empty() && !line.starts_with('#') {
            let kind = kind.context("a case without a heading")?;
            println!(rt; "{}", kind.answer(alloc, line.as_str())?)?;
        }
    }
    Ok(())
}
