ghost use Rattle.std.specs.Prelude.{◌≡◌, ◌∷◌, ◌<◌, ℕ, length};
ghost use Rattle.fv_lines.specs.Words.{lines, stops, behind_end, next_place};

/// The first line, without its end, and what stands behind it.
pub fn next_line(bytes: &[u8]) -> (&[u8], &[u8])
    requires { 0 < length bytes.now }
    ensures lines { lines bytes.now ≡ result.0.now ∷ lines result.1.now }
    ensures shorter { length result.1.now < length bytes.now }
{
    let mut end = 0;
    while !stops(&bytes[end..]) {
        end += 1;
    }
    (&bytes[..end], behind_end(&bytes[end..]))
}

/// Whether a line stops here: the bytes end, or begin with LF, or CR and LF.
fn stops(bytes: &[u8]) -> bool
    ensures { result ≡ stops bytes.now }
{
    match bytes {
        [] => true,
        [b'\n', ..] => true,
        [b'\r', b'\n', ..] => true,
        _ => false,
    }
}

/// What stands behind the LF, or CR and LF, that the bytes begin with.
fn behind_end(bytes: &[u8]) -> &[u8]
    ensures { result.now ≡ behind_end bytes.now }
{
    match bytes {
        [b'\n', rest @ ..] => rest,
        [b'\r', b'\n', rest @ ..] => rest,
        _ => bytes,
    }
}

/// The next line's number; it stands still at `2^32 - 1`.
pub fn next_place(line: u32) -> u32
    ensures { result ≡ next_place line }
{
    line.saturating_add(1)
}
