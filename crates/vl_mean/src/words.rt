//! Numbers of the words of memories, by their printed names.
ghost use Rattle.std.specs.Prelude.{◌≡◌, ◌++◌, ℕ, List, Some, None, IfSome, IfNone, codes, bytes_eq, false};
ghost use Rattle.std.specs.Prelude.{if◌then◌else◌, int_le, int_lt, ◌&&◌, ◌^◌, ◌-◌, pos, negsuc};
ghost use Rattle.std.specs.Fmt.{signed_decimal};
ghost use Rattle.fv_bits.specs.Bits.{as_int};
ghost use Rattle.vl_size.specs.Size as spec;
ghost use Rattle.vl_size.specs.Table.{is_between, word_name};
ghost use Rattle.vl_mean.specs.Env.{cells_of, values_of};
ghost use Rattle.vl_mean.specs.Near.{is_narrow};

use crate::env::Env;
use fv_bits::{is_below_zero, ones};
use itoa::Buffer;
use vl_size::{Decl, Own};

/// What stands behind this front.
#[tactic(auto, using(crate::proofs::WordLemmas::front))]
fn behind<'a>(text: &'a [u8], front: &[u8]) -> Option<&'a [u8]>
    ensures none { IfNone result ((rest : List ℕ) → bytes_eq (front.now ++ rest) text.now ≡ false) }
    ensures some { IfSome result (λ x. (rest : List ℕ)
        → bytes_eq (front.now ++ rest) text.now ≡ bytes_eq rest x.now) }
{
    text.strip_prefix(front)
}

/// Whether a name is that of the memory's word with these digits in its index.
fn is_word(name: &[u8], memory: &[u8], digits: &[u8]) -> bool
    ensures { result ≡ bytes_eq (memory.now ++ codes "[" ++ digits.now ++ codes "]") name.now }
{
    let Some(rest) = behind(name, memory) else {
        return false;
    };
    let Some(rest) = behind(rest, b"[") else {
        return false;
    };
    match behind(rest, digits) {
        None => false,
        Some(rest) => b"]".as_slice() == rest,
    }
}

/// An index read by its sign, where it has 64 bits.
pub(crate) fn narrow(own: Own) -> Option<i64>
    ensures { let i = as_int own.width own.signed own.number in
        result ≡ (if is_narrow i then Some i else None) }
{
    if is_below_zero(own.width, own.signed, own.number) {
        let past = ones(own.width) - own.number;
        return if past < 1 << 63 {
            Some(-1 - past as i64)
        } else {
            None
        };
    }
    if own.number < 1 << 63 {
        Some(own.number as i64)
    } else {
        None
    }
}

impl Env {
    /// The number of a memory's word; 0 past its bounds.
    pub(crate) fn word(&self, memory: &Decl, index: Own) -> u128
        ensures { let i = as_int index.width index.signed index.number in
            result ≡ spec.memory_word (cells_of self.now) memory.now memory.now.words i }
    {
        let Some((left, right)) = memory.words else {
            return 0;
        };
        match between(left, right, index) {
            None => 0,
            Some(index) => self.word_number(memory.name.bytes(), index),
        }
    }

    /// The number at a memory's name with an index.
    fn word_number(&self, memory: &[u8], index: i64) -> u128
        ensures { result ≡ values_of self.now (word_name memory.now index) }
    {
        let mut buffer = Buffer::new();
        let digits = buffer.format(index).as_bytes();
        self.number_of_word(memory, digits)
    }

    fn number_of_word(&self, memory: &[u8], digits: &[u8]) -> u128
        ensures { result ≡ values_of self.now (memory.now ++ codes "[" ++ digits.now ++ codes "]") }
    {
        for place in 0..self.numbers.len() {
            let Some((name, number)) = self.numbers.get_index(place) else {
                return 0;
            };
            if is_word(name.as_slice(), memory, digits) {
                return *number;
            }
        }
        0
    }
}

/// An index read by its sign, where it lies between bounds that may stand in either order.
fn between(left: i64, right: i64, own: Own) -> Option<i64>
    ensures { let i = as_int own.width own.signed own.number in
        result ≡ (if is_between left right i then Some i else None) }
{
    let index = narrow(own)?;
    if left <= index && index <= right {
        return Some(index);
    }
    if right <= index && index <= left {
        return Some(index);
    }
    None
}
