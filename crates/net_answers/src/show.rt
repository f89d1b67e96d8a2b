//! Numbers and lists as text.

use fv_text::Memory;

/// In hexadecimal digits behind `0x`.
pub(crate) fn put_number(out: &mut String, number: u128) -> Result<(), Memory> {
    let high = (number >> 64) as u64;
    let low = (number % (1 << 64)) as u64;
    if high == 0 {
        write!(out, "0x{low:x}")?;
    } else {
        write!(out, "0x{high:x}{low:016x}")?;
    }
    Ok(())
}

/// Numbers with a blank between two, in square brackets.
pub(crate) fn put_numbers(out: &mut String, numbers: &[u128]) -> Result<(), Memory> {
    out.push_str("[")?;
    for (index, number) in numbers.iter().enumerate() {
        if index > 0 {
            out.push_str(" ")?;
        }
        put_number(out, *number)?;
    }
    out.push_str("]")?;
    Ok(())
}
