//! Cases of instructions. A case is a line: a row, the word, the values of the sources, the program counter and the
//! word of memory in hexadecimal, and what the core may choose (`a` for aligned memory, `m` for alternative results of
//! M, `c` for compressed instructions, `-` for none). A net plays a channel that shows these, and the answer is what
//! the row's circuit shows, in the order of its nodes. Behind it stands a digit for the retirement that does all this,
//! and for each of those that differ from it in one number: 1 where the node of agreement shows that it agrees. Last
//! comes a digit for the effect itself: 1 where it is the one that the table of instructions has. Rows are those of
//! RV32I, M and C, and of Zba and Zbs; of these a `?` stands for a retirement of which the row's monitor says another
//! thing.

use crate::case::case_of;
use crate::circuit_shown::shown;
use fv_text::Memory;
use std::alloc::Global;

/// The answer to the case of a line: what the row's circuit shows, or that the line is no case.
pub fn answer(alloc: Global, line: &str) -> Result<String, Memory> {
    match case_of(line) {
        Some(case) => shown(alloc, &case),
        None => Ok(format!(in alloc; "no case {line:?}")?),
    }
}
