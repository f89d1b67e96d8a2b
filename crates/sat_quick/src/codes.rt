//! Literals as codes of 32 bits: twice the index of the variable, that of variable 1 being 0, and one more for its
//! complement.

/// None where 32 bits don't hold the code.
pub(crate) fn code_of(lit: i64) -> Option<u32> {
    let index = u32::try_from(lit.unsigned_abs().saturating_sub(1)).ok()?;
    let code = index.checked_mul(2)?;
    Some(if lit > 0 { code } else { code | 1 })
}

pub(crate) fn lit_of(code: u32) -> i64 {
    let var = i64::from(code / 2) + 1;
    if code % 2 == 0 { var } else { -var }
}

/// The index of the variable.
pub(crate) fn index_of(code: u32) -> usize {
    (code / 2) as usize
}

/// The code of the complement.
pub(crate) fn flip(code: u32) -> u32 {
    code ^ 1
}

/// The number in 32 bits; where they don't hold it, the most that they do.
pub(crate) fn narrow(number: usize) -> u32 {
    u32::try_from(number).unwrap_or(u32::MAX)
}
