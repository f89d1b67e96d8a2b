//! Guesses at where the gates of two literals are. A guess is looked up before it is used, so any number may stand
//! anywhere.
ghost use Rattle.std.specs.Prelude.{◌≡◌, ◌<◌, ◌≤◌, ◌^◌, length};

use crate::node::Lit;

/// How many places of the table a gate may stand at.
pub(crate) const PLACES: usize = 8;

/// The first place of a gate in a table of so many places.
pub(crate) fn first_place(a: Lit, b: Lit, places: usize) -> usize
    requires { 0 < places }
    ensures { result < places }
{
    let mixed = a.wrapping_mul(0x9e37_79b9_7f4a_7c15).wrapping_add(b);
    let spread = mixed.wrapping_mul(0xd6e8_feb8_6659_fd93) >> 24;
    spread as usize % places
}

/// A place further on, from the front again behind the last one.
pub(crate) fn later_place(first: usize, turn: usize, places: usize) -> usize
    requires { 0 < places }
    ensures { result < places }
{
    first.wrapping_add(turn) % places
}

/// Puts the number of a node at a place of its gate that is free, or else in the place of another gate. Says whether
/// it was free.
pub(crate) fn put(table: &mut [u64], a: Lit, b: Lit, node: u64) -> bool
    ensures { length table.new ≡ length table.old }
{
    let places = table.len();
    if places == 0 {
        return false;
    }
    let first = first_place(a, b, places);
    for turn in 0..PLACES {
        let place = later_place(first, turn, places);
        if table[place] == 0 {
            table[place] = node;
            return true;
        }
    }
    table[first] = node;
    false
}
