//! What stands before and behind a part of a text.

ghost use Rattle.std.specs.Prelude.{◌≡◌, ◌++◌, MatchOption};
ghost use Rattle.fv_lines.specs.Cuts.{HasNo, IsCut, BeginsOtherwise, EndsOtherwise};

/// What stands before the first such byte, and behind it. None where there is none.
pub fn cut_at(bytes: &[u8], mark: u8) -> Option<(&[u8], &[u8])>
    ensures { MatchOption result (HasNo mark bytes.now) (λ cut. IsCut mark bytes.now cut.0.now cut.1.now) }
{
    for (end, byte) in bytes.iter().enumerate() {
        if *byte == mark {
            return Some((&bytes[..end], &bytes[end + 1..]));
        }
    }
    None
}

/// What stands behind this front. None where the bytes begin otherwise.
pub fn behind<'a>(bytes: &'a [u8], front: &[u8]) -> Option<&'a [u8]>
    ensures { MatchOption result (BeginsOtherwise front.now bytes.now) (λ rest. bytes.now ≡ front.now ++ rest.now) }
{
    if bytes.len() < front.len() {
        return None;
    }
    let (start, rest) = bytes.split_at(front.len());
    if start == front { Some(rest) } else { None }
}

/// What stands before this end. None where the bytes end otherwise.
pub fn before<'a>(bytes: &'a [u8], end: &[u8]) -> Option<&'a [u8]>
    ensures { MatchOption result (EndsOtherwise end.now bytes.now) (λ start. bytes.now ≡ start.now ++ end.now) }
{
    if bytes.len() < end.len() {
        return None;
    }
    let (start, rest) = bytes.split_at(bytes.len() - end.len());
    if rest == end { Some(start) } else { None }
}
