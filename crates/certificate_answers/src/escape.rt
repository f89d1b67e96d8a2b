//! Bytes as a line shows them.

ghost use Rattle.std.specs.Prelude.{◌<◌, length, IfSome};

use fv_lines::cut_at;
use fv_text::Memory;
use std::alloc::Global;

/// The bytes that a line shows.
pub fn read_escaped(alloc: Global, line: &str) -> Result<Vec<u8>, Memory> {
    let mut bytes = Vec::new(alloc);
    let mut rest = line.as_bytes();
    while let Some((byte, behind)) = next(rest) {
        bytes.push(byte)?;
        rest = behind;
    }
    Ok(bytes)
}

/// The first byte, and what stands behind it.
fn next(line: &[u8]) -> Option<(u8, &[u8])>
    ensures { IfSome result (λ x. length x.1.now < length line.now) }
{
    match line {
        [] => None,
        [b'\\', b'n', rest @ ..] => Some((b'\n', rest)),
        [b'\\', b't', rest @ ..] => Some((b'\t', rest)),
        [b'\\', b'r', rest @ ..] => Some((b'\r', rest)),
        [b'\\', b'\\', rest @ ..] => Some((b'\\', rest)),
        [b'\\', b'x', high, low, rest @ ..] => Some((digit(*high) * 16 + digit(*low), rest)),
        [byte, rest @ ..] => Some((*byte, rest)),
    }
}

/// The number of a hexadecimal digit in lower case.
fn digit(byte: u8) -> u8
    ensures { result < 16 }
{
    match byte {
        b'0'..=b'9' => byte - b'0',
        b'a'..=b'f' => byte - b'a' + 10,
        _ => 0,
    }
}

/// Adds bytes as a line shows them.
pub fn put_escaped(out: &mut String, bytes: &[u8]) -> Result<(), Memory> {
    for byte in bytes {
        match *byte {
            b'\n' => out.push_str("\\n")?,
            b'\t' => out.push_str("\\t")?,
            b'\r' => out.push_str("\\r")?,
            b'\\' => out.push_str("\\\\")?,
            32..=126 => out.push(char::from(*byte))?,
            _ => write!(out, "\\x{byte:02x}")?,
        }
    }
    Ok(())
}

/// What stands before the first bar, and behind it; all and nothing where there is none.
pub fn parted(bytes: &[u8]) -> (&[u8], &[u8]) {
    cut_at(bytes, b'|').unwrap_or((bytes, b""))
}
