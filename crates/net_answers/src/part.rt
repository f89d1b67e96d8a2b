//! The words of a part of a line.

use fv_text::Memory;
use std::alloc::Global;

/// The word at a place, the first at 0; nothing where there is none.
pub(crate) fn word(part: &str, place: usize) -> &str {
    for (index, word) in part.split(' ').enumerate() {
        if index == place {
            return word;
        }
    }
    ""
}

/// The number that a word is; 0 where it is none.
fn number(word: &str) -> u128 {
    match word.split_once('x') {
        Some((_, digits)) => u128::from_str_radix(digits, 16).unwrap_or(0),
        None => word.parse::<u128>().unwrap_or(0),
    }
}

/// The number at a place.
pub(crate) fn number_at(part: &str, place: usize) -> u128 {
    number(word(part, place))
}

/// The number at a place, as of a node or a width; 4,294,967,295 where it is larger.
pub(crate) fn short_at(part: &str, place: usize) -> u32 {
    let number = number_at(part, place);
    if number < 1 << 32 {
        number as u32
    } else {
        u32::MAX
    }
}

/// The node that is named at a place.
pub(crate) fn node_at(part: &str, place: usize) -> u64 {
    u64::from(short_at(part, place))
}

/// The node that a word names.
pub(crate) fn node_of(word: &str) -> u64 {
    node_at(word, 0)
}

/// The numbers from a place on.
pub(crate) fn numbers_from(alloc: Global, part: &str, place: usize) -> Result<Vec<u128>, Memory> {
    let mut numbers = Vec::new(alloc);
    for word in part.split(' ').skip(place) {
        numbers.push(number(word))?;
    }
    Ok(numbers)
}
