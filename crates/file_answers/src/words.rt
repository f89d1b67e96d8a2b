//! Cases of command lines. A case is a line: the words behind the program's name, with one blank between two; `''` is
//! the empty word. The answer is what they ask for, or `none`.

use fv_text::{Memory, Text};
use rvf_words::{Line, Options, read_words};
use std::alloc::Global;

/// A text as a reader sees it.
fn shown(text: &Text) -> &str {
    str::from_utf8(text.bytes()).unwrap_or("?")
}

/// A word with its operands and options.
fn with_options(alloc: Global, word: &str, options: &Options) -> Result<String, Memory> {
    let (cfg, outdir) = (shown(&options.cfg), shown(&options.outdir));
    let (core, basedir) = (shown(&options.core), shown(&options.basedir));
    let (budget, jobs) = (options.budget, options.jobs);
    Ok(format!(in alloc;
        "{word} [{cfg}] [{outdir}] core [{core}] basedir [{basedir}] budget {budget} jobs {jobs}"
    )?)
}

fn asked(alloc: Global, line: &Line) -> Result<String, Memory> {
    Ok(match line {
        Line::Run {
            cfg,
            outdir,
            core,
            basedir,
            budget,
            jobs,
            cubes,
        } => {
            let (cfg, outdir) = (shown(cfg), shown(outdir));
            let (core, basedir) = (shown(core), shown(basedir));
            format!(in alloc;
                "run [{cfg}] [{outdir}] core [{core}] basedir [{basedir}] budget {budget} jobs {jobs} cubes {cubes}"
            )?
        }
        Line::List { cfg } => format!(in alloc; "list [{}]", shown(cfg))?,
        Line::Lrat { cnf, proof } => format!(in alloc; "lrat [{}] [{}]", shown(cnf), shown(proof))?,
        Line::Bench { size } => format!(in alloc; "bench {size}")?,
        Line::Cover(options) => with_options(alloc, "cover", options)?,
        Line::Zb(options) => with_options(alloc, "zb", options)?,
        Line::Induct { options, steps } => {
            let asked = with_options(alloc, "induct", options)?;
            format!(in alloc; "{asked} steps {steps}")?
        }
        Line::Toaig {
            cfg,
            check,
            file,
            core,
            basedir,
        } => {
            let (cfg, check, file) = (shown(cfg), shown(check), shown(file));
            let (core, basedir) = (shown(core), shown(basedir));
            format!(in alloc; "toaig [{cfg}] [{check}] [{file}] core [{core}] basedir [{basedir}]")?
        }
        Line::Fromaig { aag, cnf } => format!(in alloc;
            "fromaig [{}] [{}]",
            shown(aag),
            shown(cnf)
        )?,
    })
}

fn words_of(alloc: Global, line: &str) -> Result<Vec<String>, Memory> {
    let mut words = Vec::new(alloc);
    if line.is_empty() {
        return Ok(words);
    }
    for word in line.split(' ') {
        let text = if word == "''" { "" } else { word };
        words.push(String::from_str(alloc, text)?)?;
    }
    Ok(words)
}

/// The answer to the case of a line: what its words ask for, or that they are refused.
pub fn answer(alloc: Global, line: &str) -> Result<String, Memory> {
    let words = words_of(alloc, line)?;
    match read_words(alloc, words.as_slice())? {
        Some(line) => asked(alloc, &line),
        None => Ok(String::from_str(alloc, "none")?),
    }
}
