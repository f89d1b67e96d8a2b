//! Texts that are large, or deep, made from a few words of a line.

use crate::parts::number;
use crate::shown;
use crate::text::{items, one_macro, prepared};
use anyhow::Result;
use fv_text::Token;
use std::alloc::{AllocError, Global};
use vl_prep::{Macros, prep};
use vl_token::lex;

/// The text so many times behind the others.
fn repeat(out: &mut Vec<u8>, text: &[u8], count: u32) -> Result<(), AllocError> {
    for _ in 0..count {
        out.extend_from_slice(text)?;
    }
    Ok(())
}

/// So many semicolons, and a text behind them.
fn semicolons(alloc: Global, count: u32, end: &[u8]) -> Result<Vec<u8>, AllocError> {
    let mut text = Vec::new(alloc);
    repeat(&mut text, b";", count)?;
    text.extend_from_slice(end)?;
    Ok(text)
}

/// How many tokens so many semicolons are.
pub(crate) fn lexed(alloc: Global, out: &mut String, count: &[u8]) -> Result<(), AllocError> {
    let text = semicolons(alloc, number(count), b"")?;
    match lex(alloc, text.as_slice(), 1, 1) {
        Ok(tokens) => write!(out, "{}", tokens.len()),
        Err(fault) => shown::lex_fault(out, fault),
    }
}

/// Items that stand in one another so many times.
pub(crate) fn nest(alloc: Global, out: &mut String, parts: &[Vec<u8>]) -> Result<(), AllocError> {
    let [count, front, opening, middle, closing, end] = parts else {
        return out.push_str("six parts are needed");
    };
    let count = number(count.as_slice());
    let mut text = Vec::new(alloc);
    text.extend_from_slice(front.as_slice())?;
    repeat(&mut text, opening.as_slice(), count)?;
    text.extend_from_slice(middle.as_slice())?;
    repeat(&mut text, closing.as_slice(), count)?;
    text.extend_from_slice(end.as_slice())?;
    items(alloc, out, text.as_slice())
}

/// What a use of the last of so many macros comes to, of which the first has the text, and each other one uses the one
/// before it once, or twice.
pub(crate) fn tower(alloc: Global, out: &mut String, parts: &[Vec<u8>], twice: bool) -> Result<()> {
    let [count, base] = parts else {
        return Ok(out.push_str("two parts are needed")?);
    };
    let mut text = Vec::new(alloc);
    text.extend_from_slice(b"`define m0 ")?;
    text.extend_from_slice(base.as_slice())?;
    levels(alloc, &mut text, number(count.as_slice()), twice)?;
    prepared(alloc, out, text.as_slice())
}

/// The macros behind the first one, and the use of the last.
fn levels(alloc: Global, out: &mut Vec<u8>, count: u32, twice: bool) -> Result<(), AllocError> {
    let mut text = String::new(alloc);
    for level in 1..count {
        let below = level - 1;
        write!(text, "\n`define m{level} `m{below}")?;
        if twice {
            write!(text, " `m{below}")?;
        }
    }
    write!(text, "\n`m{}", count.saturating_sub(1))?;
    out.extend_from_slice(text.as_bytes())
}

/// How many tokens there are where a macro of so many stands behind 1,999,999 others.
pub(crate) fn room(alloc: Global, out: &mut String, count: &[u8]) -> Result<()> {
    let body = semicolons(alloc, number(count), b"")?;
    let macros = one_macro(alloc, b"x", body.as_slice())?;
    let tokens = behind_others(alloc)?;
    Ok(length(alloc, out, macros, tokens.as_slice())?)
}

/// The use of the macro `x` behind 1,999,999 tokens.
fn behind_others(alloc: Global) -> Result<Vec<Token>> {
    let text = semicolons(alloc, 1_999_999, b"\n`x")?;
    Ok(lex(alloc, text.as_slice(), 1, 1)?)
}

/// How many tokens there are once the macros are used, or the refusal.
fn length(
    alloc: Global,
    out: &mut String,
    macros: Macros,
    tokens: &[Token],
) -> Result<(), AllocError> {
    match prep(alloc, macros, tokens) {
        Ok((output, _macros)) => write!(out, "{}", output.len()),
        Err(fault) => shown::prep_fault(out, &fault),
    }
}
