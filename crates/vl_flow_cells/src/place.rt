ghost use Rattle.std.specs.Prelude.{◌≡◌, ◌<◌, ◌≤◌, ◌+◌, ◌-◌, ◌^◌, ℕ, ℤ, Some, None, IfSome, IsTrue, false, true};
ghost use Rattle.std.specs.Prelude.{pos, negsuc, ◌+ℤ◌, ◌≤ℤ◌, int_le, if◌then◌else◌};
ghost use Rattle.fv_bits.specs.Bits.{as_int};
ghost use Rattle.vl_size.specs.Size as spec;
ghost use Rattle.vl_size.specs.Table.{is_between, span};
ghost use Rattle.vl_flow_cells.specs.Places.{index_at, is_near};

use vl_size::place::word_of;
use vl_size::{Decl, Own};

/// The index, where 64 bits with a sign have it: else it is past every vector.
pub(crate) fn near(index: Own) -> Option<i128>
    ensures { let i = as_int index.width index.signed index.number in
        result ≡ (if is_near i then Some i else None) }
{
    word_of((i64::MIN, i64::MAX), index)
}

/// The place of an index in a vector, counted from its lowest bit.
pub(crate) fn offset_of(decl: &Decl, index: i128) -> i128
    requires low { negsuc (2 ^ 64) ≤ℤ index }
    requires high { index ≤ℤ pos (2 ^ 64) }
    ensures value { result ≡ spec.offset_of decl.now index }
    ensures low { negsuc (2 ^ 66) ≤ℤ result }
    ensures high { result ≤ℤ pos (2 ^ 66) }
{
    if decl.right <= decl.left {
        index - i128::from(decl.right)
    } else {
        i128::from(decl.right) - index
    }
}

/// The last index of so many from the first on.
fn last_of(first: i128, count: u32) -> i128
    requires low { negsuc (2 ^ 63) ≤ℤ first }
    requires high { first ≤ℤ pos (2 ^ 63) }
    requires count { count ≤ 128 }
    ensures value { result ≡ (first +ℤ pos (count - 1)) }
    ensures low { negsuc (2 ^ 63) ≤ℤ result }
    ensures high { result ≤ℤ pos (2 ^ 64) }
{
    first + i128::from(count.saturating_sub(1))
}

/// Where the part `[start +: count]` of a vector begins, counted from its lowest bit.
pub(crate) fn start_of(decl: &Decl, start: i128, count: u32) -> i128
    requires low { negsuc (2 ^ 63) ≤ℤ start }
    requires high { start ≤ℤ pos (2 ^ 63) }
    requires count { count ≤ 128 }
    ensures value { result ≡ spec.start_of decl.now start count }
    ensures low { negsuc (2 ^ 66) ≤ℤ result }
    ensures high { result ≤ℤ pos (2 ^ 66) }
{
    let descends = decl.right <= decl.left;
    if descends {
        return offset_of(decl, start);
    }
    offset_of(decl, last_of(start, count))
}

/// How many words lie before the one of the index, from the left bound on.
#[tactic(auto, using(crate::proofs::Ranges::word_at))]
fn words_before(words: (i64, i64), index: i128) -> u64
    requires left { spec.is_bound words.0 ≡ true }
    requires right { spec.is_bound words.1 ≡ true }
    requires between { is_between words.0 words.1 index ≡ true }
    ensures within { result < span words.0 words.1 }
    ensures index { index_at (int_le words.0 words.1) words.0 result ≡ index }
{
    (index - i128::from(words.0)).unsigned_abs() as u64
}

/// How many words of a memory stand before the one of the index, from the left bound on. None where none has it.
pub(crate) fn word_place(words: (i64, i64), index: Own) -> Option<u64>
    requires left { spec.is_bound words.0 ≡ true }
    requires right { spec.is_bound words.1 ≡ true }
    ensures some { let i = as_int index.width index.signed index.number in
        IfSome result (λ k. (is_between words.0 words.1 i ≡ true) × (k < span words.0 words.1)
        × (index_at (int_le words.0 words.1) words.0 k ≡ i)) }
    ensures none { result ≡ None
        → is_between words.0 words.1 (as_int index.width index.signed index.number) ≡ false }
{
    match word_of(words, index) {
        None => None,
        Some(index) => Some(words_before(words, index)),
    }
}
