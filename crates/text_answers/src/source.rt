//! Texts that are read as one.

use crate::{shape, shown};
use std::alloc::{AllocError, Global};
use vl_prep::Macros;
use vl_text::{Assumption, Core, Retirements, SourceText, read_source};
use vl_tree::Source;

/// The options of a core, which are macros.
const OPTIONS: [&str; 2] = ["RISCV_FORMAL_ALIGNED_MEM", "RISCV_FORMAL_ALTOPS"];

/// What is read of texts. A text is a line of the configuration behind `d`, a line of assumptions behind `a`, and
/// else a file. Lines are numbered from 1 on in this order, and so are files.
pub(crate) fn read(alloc: Global, out: &mut String, parts: &[Vec<u8>]) -> Result<(), AllocError> {
    let mut texts = Vec::new(alloc);
    let mut assumptions = Vec::new(alloc);
    let mut line = 0u32;
    let mut file = 0u32;
    for part in parts {
        let Some((kind, bytes)) = part.as_slice().split_first() else {
            continue;
        };
        match kind {
            b'd' | b'a' => line = line.saturating_add(1),
            _ => file = file.saturating_add(1),
        }
        if *kind == b'a' {
            assumptions.push(Assumption {
                line,
                expression: bytes,
            })?;
        } else {
            texts.push(text(*kind == b'd', line, file, bytes))?;
        }
    }
    put_read(alloc, out, texts.as_slice(), assumptions.as_slice())
}

/// A line of the configuration, or a file.
fn text(is_line: bool, line: u32, file: u32, bytes: &[u8]) -> SourceText<'_> {
    if is_line {
        return SourceText {
            file: 0,
            line,
            bytes,
        };
    }
    SourceText {
        file,
        line: 1,
        bytes,
    }
}

/// The modules that are read, or the refusal.
fn put_read(
    alloc: Global,
    out: &mut String,
    texts: &[SourceText],
    assumptions: &[Assumption],
) -> Result<(), AllocError> {
    let core = Core {
        compressed: false,
        retirements: Retirements::One,
    };
    match read_source(alloc, core, texts, assumptions) {
        Ok((source, macros)) => found(out, &source, &macros),
        Err(fault) => shown::text_fault(out, &fault),
    }
}

/// Each module's name and shape, and which options are defined.
fn found(out: &mut String, source: &Source, macros: &Macros) -> Result<(), AllocError> {
    for module in source.modules.as_slice() {
        shown::word(out, "", module.name.bytes())?;
        out.push_str(": ")?;
        shape::module(out, module)?;
    }
    for option in OPTIONS {
        if macros.has(option) {
            out.push_str(option)?;
            out.push_str("; ")?;
        }
    }
    Ok(())
}
