//! Answers as text.

use fv_text::Pos;
use std::alloc::{AllocError, Global};
use vl_mean::{Const, ConstFault};

fn sign(signed: bool) -> &'static str {
    if signed { "signed" } else { "unsigned" }
}

/// What a line says, behind the line itself, or behind its length where this is more than 120 bytes.
pub(crate) fn behind(alloc: Global, line: &str, said: &str) -> Result<String, AllocError> {
    if line.len() > 120 {
        let front = line.len();
        return format!(in alloc; "{front} bytes: {said}");
    }
    format!(in alloc; "{line}: {said}")
}

/// A size with a sign, or that there is none.
pub(crate) fn size(alloc: Global, size: Option<u32>, signed: bool) -> Result<String, AllocError> {
    match size {
        None => String::from_str(alloc, "none"),
        Some(width) => {
            let sign = sign(signed);
            format!(in alloc; "{width} {sign}")
        }
    }
}

/// A constant with its size and sign.
pub(crate) fn constant(alloc: Global, found: &Const) -> Result<String, AllocError> {
    let width = found.width;
    let value = found.value;
    let sign = sign(found.signed);
    format!(in alloc; "{width} {sign} {value}")
}

fn at(alloc: Global, what: &str, pos: Pos) -> Result<String, AllocError> {
    let col = pos.col;
    format!(in alloc; "{what} at {col}")
}

/// A refusal, with the column of its place.
pub(crate) fn fault(alloc: Global, fault: &ConstFault) -> Result<String, AllocError> {
    match fault {
        ConstFault::NotConstant(pos) => at(alloc, "not constant", *pos),
        ConstFault::ZeroDivisor(pos) => at(alloc, "zero divisor", *pos),
        ConstFault::TooWide(pos, bits) => {
            let col = pos.col;
            format!(in alloc; "{bits} bits at {col}")
        }
        ConstFault::Range(pos) => at(alloc, "range", *pos),
        ConstFault::Memory => String::from_str(alloc, "no memory"),
    }
}
