ghost use Rattle.std.specs.Prelude.{◌≡◌};
ghost use Rattle.vl_token.specs.Place as place;

use fv_text::Pos;

/// The place behind the bytes.
pub(crate) fn place_after(start: Pos, bytes: &[u8]) -> Pos
    ensures { result ≡ place.place_after start bytes.now }
{
    let mut pos = start;
    for byte in bytes {
        pos = place_behind(pos, *byte);
    }
    pos
}

fn place_behind(pos: Pos, byte: u8) -> Pos
    ensures { result ≡ place.place_behind pos byte }
{
    if byte == b'\n' {
        Pos {
            file: pos.file,
            line: pos.line.saturating_add(1),
            col: 1,
        }
    } else {
        Pos {
            file: pos.file,
            line: pos.line,
            col: pos.col.saturating_add(1),
        }
    }
}
