//! Numbers as a case shows them.

use fv_text::Memory;
use std::alloc::Global;

/// The numbers that blanks part.
pub(crate) fn numbers(alloc: Global, text: &[u8]) -> Result<Vec<i64>, Memory> {
    let mut found = Vec::new(alloc);
    for word in str::from_utf8(text).unwrap_or("").split_whitespace() {
        found.push(word.parse().unwrap_or(0))?;
    }
    Ok(found)
}
