//! Clauses one behind the other in one list.

ghost use Rattle.std.specs.Prelude.{◌≡◌, ◌<◌, ◌≤◌, ◌+◌, ◌^◌, ◌++◌, length, map, slice_get, vec_len, vec_capacity};
ghost use Rattle.std.specs.List.{AllByRecursion};
ghost use Rattle.std.specs.Option.{option_copied};
ghost use Rattle.cnf_form.specs.Flat.{Mounting, clauses_from, end_at};

/// Where the clause at the place ends, by where each begins, if all end there.
pub fn end_of(starts: &[u32], place: usize, end: usize) -> usize
    requires { place < length starts.now }
    ensures { result ≡ end_at starts.now place end }
{
    let next = place + 1;
    if next < starts.len() {
        starts[next] as usize
    } else {
        end
    }
}

/// The clause at the place, of which each begins at its start. None exactly where the place isn't below the number of
/// clauses.
pub(crate) fn part_at<'a>(literals: &'a [i64], starts: &[u32], place: usize) -> Option<&'a [i64]>
    requires { Mounting starts.now (length literals.now) }
    ensures { option_copied result ≡ slice_get (clauses_from literals.now starts.now) place }
{
    if place >= starts.len() {
        return None;
    }
    let start = starts[place] as usize;
    let end = end_of(starts, place, literals.len());
    Some(&literals[start..end])
}

/// Adds where clauses begin that come behind as many literals. There is room for them.
pub(crate) fn push_starts(starts: &mut Vec<u32>, more: &[u32], end: usize)
    requires fits { AllByRecursion (λ start. end + start < 2 ^ 32) more.now }
    requires room { vec_len starts.old + length more.now ≤ vec_capacity starts.old }
    ensures { starts.new.items ≡ starts.old.items ++ map (λ start. end + start) more.now }
{
    for start in more {
        starts.push_reserved((end + *start as usize) as u32);
    }
}
