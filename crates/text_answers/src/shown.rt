//! How tokens and refusals are printed. A place is its line and column, behind its file where that isn't file 1. Each
//! function writes behind what is there, so that none owns a text that an exit would drop.

use fv_text::{Kind, Number, Pos, Text, Token};
use std::alloc::AllocError;
use vl_parse::ParseFault;
use vl_prep::PrepFault;
use vl_text::TextFault;
use vl_token::LexFault;

/// The bytes behind a word.
pub(crate) fn word(out: &mut String, what: &str, bytes: &[u8]) -> Result<(), AllocError> {
    out.push_str(what)?;
    for byte in bytes {
        out.push(char::from(*byte))?;
    }
    Ok(())
}

/// Width, size and sign, then the value and its wild and unknown bits.
fn number(out: &mut String, number: &Number) -> Result<(), AllocError> {
    let width = number.width;
    let sized = if number.sized { "sized" } else { "unsized" };
    let signed = if number.signed { "signed" } else { "unsigned" };
    let value = number.value;
    let wild = number.wild;
    let unknown = number.unknown;
    write!(out, "{width} {sized} {signed} {value} {wild} {unknown}")
}

/// What a token is, and how it is written.
fn kind(out: &mut String, kind: &Kind) -> Result<(), AllocError> {
    match kind {
        Kind::Name(text) => word(out, "name ", text.bytes()),
        Kind::Keyword(keyword) => word(out, "keyword ", keyword.text()),
        Kind::Symbol(symbol) => word(out, "sign ", symbol.text()),
        Kind::Number(found) => number(out, found),
        Kind::System(text) => word(out, "system ", text.bytes()),
        Kind::Tick(text) => word(out, "tick ", text.bytes()),
        Kind::Quoted => out.push_str("string"),
        Kind::Continue => out.push_str("continue"),
    }
}

/// How a token is written; of a number its value.
fn written(out: &mut String, kind: &Kind) -> Result<(), AllocError> {
    match kind {
        Kind::Name(text) | Kind::System(text) | Kind::Tick(text) => word(out, "", text.bytes()),
        Kind::Keyword(keyword) => word(out, "", keyword.text()),
        Kind::Symbol(symbol) => word(out, "", symbol.text()),
        Kind::Number(number) => write!(out, "{}", number.value),
        Kind::Quoted => out.push_str("string"),
        Kind::Continue => out.push_str("continue"),
    }
}

fn place(out: &mut String, pos: Pos) -> Result<(), AllocError> {
    let file = pos.file;
    let line = pos.line;
    let col = pos.col;
    if file == 1 {
        return write!(out, "{line}:{col}");
    }
    write!(out, "{file}:{line}:{col}")
}

/// Each token with its place, and what it is.
pub(crate) fn tokens(out: &mut String, all: &[Token]) -> Result<(), AllocError> {
    for token in all {
        place(out, token.pos)?;
        out.push(' ')?;
        kind(out, &token.kind)?;
        out.push_str("; ")?;
    }
    Ok(())
}

/// Each token with its place, as it is written.
pub(crate) fn output(out: &mut String, all: &[Token]) -> Result<(), AllocError> {
    for token in all {
        place(out, token.pos)?;
        out.push(' ')?;
        written(out, &token.kind)?;
        out.push_str("; ")?;
    }
    Ok(())
}

/// The refusal's name, and its place.
fn refused(out: &mut String, name: &str, pos: Pos) -> Result<(), AllocError> {
    out.push_str(name)?;
    out.push(' ')?;
    place(out, pos)
}

/// The refusal's name, a text, and its place.
fn refused_word(out: &mut String, name: &str, text: &Text, pos: Pos) -> Result<(), AllocError> {
    out.push_str(name)?;
    word(out, " ", text.bytes())?;
    out.push(' ')?;
    place(out, pos)
}

pub(crate) fn lex_fault(out: &mut String, fault: LexFault) -> Result<(), AllocError> {
    match fault {
        LexFault::NotAscii(pos) => refused(out, "not ascii", pos),
        LexFault::BadNumber(pos) => refused(out, "bad number", pos),
        LexFault::OpenComment(pos) => refused(out, "open comment", pos),
        LexFault::BadChar(pos) => refused(out, "bad char", pos),
        LexFault::TooManyTokens(pos) => refused(out, "too many", pos),
        LexFault::OpenString(pos) => refused(out, "open string", pos),
        LexFault::Memory => out.push_str("no memory"),
    }
}

pub(crate) fn prep_fault(out: &mut String, fault: &PrepFault) -> Result<(), AllocError> {
    match fault {
        PrepFault::UnknownMacro(name, pos) => refused_word(out, "unknown", name, *pos),
        PrepFault::UnbalancedIf(pos) => refused(out, "unbalanced", *pos),
        PrepFault::MacroArgs(pos) => refused(out, "arguments", *pos),
        PrepFault::MacroDepth(pos) => refused(out, "depth", *pos),
        PrepFault::Include(pos) => refused(out, "include", *pos),
        PrepFault::TooManyTokens(pos) => refused(out, "too many", *pos),
        PrepFault::NoName(pos) => refused(out, "no name", *pos),
        PrepFault::Memory => out.push_str("no memory"),
    }
}

pub(crate) fn parse_fault(out: &mut String, fault: &ParseFault) -> Result<(), AllocError> {
    match fault {
        ParseFault::Syntax(pos) => refused(out, "syntax", *pos),
        ParseFault::TooDeep(pos) => refused(out, "deep", *pos),
        ParseFault::Outside(pos, text) => refused_word(out, "outside", text, *pos),
        ParseFault::Memory => out.push_str("no memory"),
    }
}

pub(crate) fn text_fault(out: &mut String, fault: &TextFault) -> Result<(), AllocError> {
    match fault {
        TextFault::Lex(fault) => lex_fault(out, *fault),
        TextFault::Prep(fault) => prep_fault(out, fault),
        TextFault::Parse(fault) => parse_fault(out, fault),
        TextFault::Memory => out.push_str("no memory"),
    }
}
