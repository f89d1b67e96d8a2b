//! The texts of a line. In each `\n`, `\r`, `\t` and `\f` stand for a line's end, a return, a tab and a form feed,
//! `\\` for a backslash, and `\|` ends one text and begins the next.

use std::alloc::{AllocError, Global};

pub(crate) fn parts(alloc: Global, line: &[u8]) -> Result<Vec<Vec<u8>>, AllocError> {
    let mut parts = Vec::new(alloc);
    let mut part = Vec::new(alloc);
    let mut escaped = false;
    for byte in line.iter().copied() {
        if escaped {
            escaped = false;
            if byte == b'|' {
                parts.push(part)?;
                part = Vec::new(alloc);
            } else {
                part.push(meant(byte))?;
            }
        } else if byte == b'\\' {
            escaped = true;
        } else {
            part.push(byte)?;
        }
    }
    parts.push(part)?;
    Ok(parts)
}

/// The byte that stands behind a backslash for this one.
fn meant(byte: u8) -> u8 {
    match byte {
        b'n' => b'\n',
        b'r' => b'\r',
        b't' => b'\t',
        b'f' => 12,
        other => other,
    }
}

/// The decimal number that the text is, or 0.
pub(crate) fn number(text: &[u8]) -> u32 {
    let mut number = 0u32;
    for byte in text {
        number = number
            .saturating_mul(10)
            .saturating_add(u32::from(byte.saturating_sub(b'0')));
    }
    number
}
