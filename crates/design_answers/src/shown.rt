//! How names and places are printed.

use anyhow::Result;
use fv_text::{Pos, Text};
use std::alloc::Global;

pub(crate) fn name(alloc: Global, text: &Text) -> Result<String> {
    let mut out = String::new(alloc);
    for byte in text.bytes() {
        out.push(char::from(*byte))?;
    }
    Ok(out)
}

pub(crate) fn place(alloc: Global, pos: Pos) -> Result<String> {
    let line = pos.line;
    let column = pos.col;
    Ok(format!(in alloc; "{line}:{column}")?)
}
