//! What rd gets, on numbers.
#![tactic(auto, using(rv_table::proofs::FieldLemmas::words))]

ghost use Rattle.std.specs.Prelude.{◌≡◌, ◌+◌, ◌≤◌, ◌<◌, ◌^◌};
ghost use Rattle.rv_table.specs.Fields as fields;
ghost use Rattle.rv_zb.specs.Effect as effect;

use crate::row::{BitRow, ShiftAddRow};

/// The five bits of a word from the bit `low` on.
#[tactic(auto, using(rv_table::proofs::FieldLemmas::words), unfolding(rv_table::specs::Fields::field))]
pub(crate) fn five_bits(word: u32, low: u32) -> u32
    requires { low < 32 }
    ensures value { result ≡ fields.field (low + 4) low word }
    ensures small { result < 32 }
{
    (word >> low) % 32
}

impl ShiftAddRow {
    /// By how many bits the first source is moved to the left.
    pub(crate) fn shift(self) -> u32
        ensures value { result ≡ effect.shift self }
        ensures few { result < 4 }
    {
        match self {
            ShiftAddRow::Sh1add => 1,
            ShiftAddRow::Sh2add => 2,
            ShiftAddRow::Sh3add => 3,
        }
    }

    #[tactic(auto, using(crate::proofs::Words::shifted))]
    pub(crate) fn result(self, s1: u32, s2: u32) -> u32
        ensures { result ≡ effect.shifted_sum (effect.shift self) s1 s2 }
    {
        (s1 << self.shift()).wrapping_add(s2)
    }
}

impl BitRow {
    pub(crate) fn result(self, word: u32, index: u32) -> u32
        requires { index < 32 }
        ensures { result ≡ effect.bit_result self word index }
    {
        match self {
            BitRow::Clear => word & !(1 << index),
            BitRow::Extract => (word >> index) % 2,
            BitRow::Invert => word ^ (1 << index),
            BitRow::Set => word | (1 << index),
        }
    }
}
