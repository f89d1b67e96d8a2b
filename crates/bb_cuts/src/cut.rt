//! Cuts of a node, and their tables.
use crate::cube::{FIRST, FOURTH, Rows, SECOND, THIRD};

/// No leaf.
pub(crate) const NONE: u32 = u32::MAX;

/// At most four nodes between the inputs and a node, the lowest first, and the table of the node over them.
#[derive(Debug, Clone, Copy, PartialEq, Eq)]
pub(crate) struct Cut {
    pub leaves: [u32; 4],
    /// Bit `n` where a leaf has the number `n` but for a multiple of 32. So there are at least as many leaves as bits.
    pub marks: u32,
    pub table: Rows,
    /// What the clauses and the leaves cost.
    pub cost: u32,
}

impl Cut {
    /// The node itself.
    pub(crate) fn own(node: u32) -> Cut {
        Cut {
            leaves: [node, NONE, NONE, NONE],
            marks: 1 << (node % 32),
            table: FIRST,
            cost: 0,
        }
    }
}

/// The rows in which the leaf at a place is true.
fn leaf_rows(place: usize) -> Rows {
    match place {
        0 => FIRST,
        1 => SECOND,
        2 => THIRD,
        _ => FOURTH,
    }
}

/// What the leaf at a place counts in the number of a row.
fn weight(place: usize) -> u32 {
    match place {
        0 => 1,
        1 => 2,
        2 => 4,
        _ => 8,
    }
}

/// The leaves of both, the lowest first. None where there are more than four.
fn united(left: &[u32; 4], right: &[u32; 4]) -> Option<[u32; 4]> {
    let mut made = [NONE; 4];
    let mut i = 0usize;
    let mut j = 0usize;
    for place in 0..5usize {
        let a = left.get(i).copied().unwrap_or(NONE);
        let b = right.get(j).copied().unwrap_or(NONE);
        let least = if a < b { a } else { b };
        if least == NONE {
            return Some(made);
        }
        if place == 4 {
            return None;
        }
        made[place] = least;
        i = i.saturating_add(usize::from(a == least));
        j = j.saturating_add(usize::from(b == least));
    }
    None
}

/// The table with two leaves in each other's place, the first of them the lower one.
fn swapped(table: Rows, low: usize, high: usize) -> Rows {
    let a = leaf_rows(low);
    let b = leaf_rows(high);
    let distance = weight(high).saturating_sub(weight(low)) % 16;
    let up = (table & a & !b) << distance;
    let down = (table & !a & b) >> distance;
    (table & !(a ^ b)) | up | down
}

/// The table over more leaves.
fn spread(cut: &Cut, leaves: &[u32; 4]) -> Rows {
    let mut table = cut.table;
    for turn in 0..4usize {
        let from = 3 - turn;
        let leaf = cut.leaves[from];
        if leaf != NONE && leaf != leaves[from] {
            table = moved(table, from, leaf, leaves);
        }
    }
    table
}

/// The table with a leaf where it stands among these, behind its place.
fn moved(table: Rows, from: usize, leaf: u32, leaves: &[u32; 4]) -> Rows {
    for (to, other) in leaves.iter().enumerate() {
        if *other == leaf && from < to {
            return swapped(table, from, to);
        }
    }
    table
}

/// Whether a table depends on each of these leaves.
fn depends(table: Rows, leaves: &[u32; 4]) -> bool {
    for (place, leaf) in leaves.iter().enumerate() {
        let rows = leaf_rows(place);
        let same = (table & rows) >> (weight(place) % 16) == table & !rows;
        if same && *leaf != NONE {
            return false;
        }
    }
    true
}

/// Whether these are the same leaves.
pub(crate) fn are_same(left: &[u32; 4], right: &[u32; 4]) -> bool {
    left[0] == right[0] && left[1] == right[1] && left[2] == right[2] && left[3] == right[3]
}

/// The leaves of two cuts together. None where there are more than four.
pub(crate) fn joined_leaves(left: &Cut, right: &Cut) -> Option<[u32; 4]> {
    if (left.marks | right.marks).count_ones() > 4 {
        return None;
    }
    united(&left.leaves, &right.leaves)
}

/// The cut of a gate over the leaves of cuts of what it reads, each of which may be turned. None where the table
/// doesn't depend on each leaf.
pub(crate) fn joined(
    left: &Cut,
    right: &Cut,
    left_turned: bool,
    right_turned: bool,
    leaves: &[u32; 4],
) -> Option<Cut> {
    let a = spread(left, leaves);
    let b = spread(right, leaves);
    let a = if left_turned { !a } else { a };
    let b = if right_turned { !b } else { b };
    let table = a & b;
    if depends(table, leaves) {
        Some(Cut {
            leaves: *leaves,
            marks: left.marks | right.marks,
            table,
            cost: 0,
        })
    } else {
        None
    }
}
