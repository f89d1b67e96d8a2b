//! Cases of modules. A case is a Verilog text on one line, whose top module is `top`. The answer is `design` where
//! nothing is refused, and else the refusal's number, its place, or `-` where it has none, and its other values, or
//! `-`.

use crate::elab_refusal::refusal;
use anyhow::Result;
use fv_text::Text;
use std::alloc::Global;
use vl_elab::{Reason, elaborate};
use vl_mean::Flat;
use vl_parse::parse;
use vl_token::lex;

/// The design of a text, or why it has none. An error is want of memory, or a text without a tree.
pub(crate) fn design(alloc: Global, text: &str) -> Result<Result<Flat, Reason>> {
    let tokens = lex(alloc, text.as_bytes(), 1, 1)?;
    let source = parse(alloc, tokens.as_slice())?;
    let top = Text::from_bytes(alloc, b"top")?;
    Ok(elaborate(alloc, source.modules.as_slice(), &top))
}

/// The answer to the case of a text: `design`, or the refusal. An error is want of memory, or a text without a tree.
pub fn answer(alloc: Global, text: &str) -> Result<String> {
    match design(alloc, text)? {
        Ok(_flat) => Ok(String::from_str(alloc, "design")?),
        Err(Reason::Refused(fault)) => refusal(alloc, &fault),
        Err(Reason::Memory) => Ok(String::from_str(alloc, "memory")?),
    }
}
