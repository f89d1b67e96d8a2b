//! What is answered of texts. Each function writes its answer behind what is there.

use crate::{shape, shown};
use anyhow::Result;
use fv_text::{Text, Token};
use std::alloc::{AllocError, Global};
use vl_parse::parse;
use vl_prep::{Macros, prep};
use vl_text::{Core, Retirements};
use vl_token::lex;

/// The tokens of a text that is file 1.
pub(crate) fn tokens(alloc: Global, out: &mut String, text: &[u8]) -> Result<(), AllocError> {
    match lex(alloc, text, 1, 1) {
        Ok(tokens) => shown::tokens(out, tokens.as_slice()),
        Err(fault) => shown::lex_fault(out, fault),
    }
}

/// A macro that stands for this text, which is line 9 of file 0.
pub(crate) fn one_macro(alloc: Global, name: &[u8], text: &[u8]) -> Result<Macros> {
    let tokens = lex(alloc, text, 0, 9)?;
    let mut macros = Macros::empty(alloc);
    macros.set(Text::from_bytes(alloc, name)?, tokens)?;
    Ok(macros)
}

/// What tokens come to by the macros, or the refusal.
fn output(
    alloc: Global,
    out: &mut String,
    macros: Macros,
    tokens: &[Token],
) -> Result<(), AllocError> {
    match prep(alloc, macros, tokens) {
        Ok((output, _macros)) => shown::output(out, output.as_slice()),
        Err(fault) => shown::prep_fault(out, &fault),
    }
}

/// What a text comes to behind a macro `one`.
pub(crate) fn prepared(alloc: Global, out: &mut String, text: &[u8]) -> Result<()> {
    let macros = one_macro(alloc, b"one", b"1")?;
    Ok(prepared_by(alloc, out, macros, text)?)
}

fn prepared_by(
    alloc: Global,
    out: &mut String,
    macros: Macros,
    text: &[u8],
) -> Result<(), AllocError> {
    match lex(alloc, text, 1, 1) {
        Ok(tokens) => output(alloc, out, macros, tokens.as_slice()),
        Err(fault) => shown::lex_fault(out, fault),
    }
}

/// What texts come to in one list, each a file of its own, the first of them file 0.
pub(crate) fn files(alloc: Global, out: &mut String, texts: &[Vec<u8>]) -> Result<()> {
    let mut tokens = Vec::new(alloc);
    let mut file = 0u32;
    for text in texts {
        for token in lex(alloc, text.as_slice(), file, 1)? {
            tokens.push(token)?;
        }
        file = file.saturating_add(1);
    }
    Ok(output(alloc, out, Macros::empty(alloc), tokens.as_slice())?)
}

/// What a text comes to by the macros, and those at its end.
fn both(alloc: Global, macros: Macros, text: &[u8]) -> Result<(Vec<Token>, Macros)> {
    let tokens = lex(alloc, text, 1, 1)?;
    Ok(prep(alloc, macros, tokens.as_slice())?)
}

/// Whether the names behind a text are macros at its end.
pub(crate) fn defined(alloc: Global, out: &mut String, parts: &[Vec<u8>]) -> Result<()> {
    let Some((text, names)) = parts.split_first() else {
        return Ok(());
    };
    let (_output, macros) = both(alloc, Macros::empty(alloc), text.as_slice())?;
    Ok(are_macros(alloc, out, &macros, names)?)
}

/// Which of the names are macros. The macros are borrowed, so that no exit drops them.
fn are_macros(
    alloc: Global,
    out: &mut String,
    macros: &Macros,
    names: &[Vec<u8>],
) -> Result<(), AllocError> {
    for name in names {
        is_macro(alloc, out, macros, name.as_slice())?;
    }
    Ok(())
}

/// A name, and whether it is a macro.
fn is_macro(
    alloc: Global,
    out: &mut String,
    macros: &Macros,
    name: &[u8],
) -> Result<(), AllocError> {
    let mut text = String::new(alloc);
    shown::word(&mut text, "", name)?;
    let is_macro = macros.has(text.as_str());
    write!(out, "{text} {is_macro}; ")
}

/// How many tokens a text comes to by the predefined macros, and the first of them.
pub(crate) fn predefined(
    alloc: Global,
    out: &mut String,
    compressed: bool,
    text: &[u8],
) -> Result<()> {
    let core = Core {
        compressed,
        retirements: Retirements::One,
    };
    let macros = vl_text::predefined(alloc, core)?;
    let (output, _macros) = both(alloc, macros, text)?;
    Ok(counted(out, output.as_slice())?)
}

fn counted(out: &mut String, tokens: &[Token]) -> Result<(), AllocError> {
    write!(out, "{} ", tokens.len())?;
    shown::output(out, tokens.get(..1).unwrap_or(&[]))
}

/// Whether a text has a tree.
pub(crate) fn parsed(alloc: Global, out: &mut String, text: &[u8]) -> Result<(), AllocError> {
    let tokens = match lex(alloc, text, 1, 1) {
        Ok(tokens) => tokens,
        Err(fault) => return shown::lex_fault(out, fault),
    };
    match parse(alloc, tokens.as_slice()) {
        Ok(_source) => out.push_str("ok"),
        Err(fault) => shown::parse_fault(out, &fault),
    }
}

/// Whether items have a tree, from the second line of a module on.
pub(crate) fn items(alloc: Global, out: &mut String, items: &[u8]) -> Result<(), AllocError> {
    let mut text = Vec::new(alloc);
    text.extend_from_slice(b"module m;\n")?;
    text.extend_from_slice(items)?;
    text.extend_from_slice(b"\nendmodule")?;
    parsed(alloc, out, text.as_slice())
}

/// The shape of a text's first module.
pub(crate) fn shape(alloc: Global, out: &mut String, text: &[u8]) -> Result<()> {
    let tokens = lex(alloc, text, 1, 1)?;
    let source = parse(alloc, tokens.as_slice())?;
    if let Some(module) = source.modules.get(0) {
        shape::module(out, module)?;
    }
    Ok(())
}
