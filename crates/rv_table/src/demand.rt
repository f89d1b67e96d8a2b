ghost use Rattle.std.specs.Prelude.{◌≡◌, ◌+◌, ◌-◌, ◌/◌, ◌%◌, ◌^◌};
ghost use Rattle.rv_table.specs.Fields as fields;

use fv_bits::part;

/// What a row asks of a word.
#[derive(Debug, Clone, Copy, PartialEq, Eq)]
pub enum Demand {
    /// The bits from the second number up to the first are the third, as `Is(high, low, number)`.
    Is(u32, u32, u32),
    /// They are another number.
    Isnt(u32, u32, u32),
    /// The bits 12 and 6:2 aren't all 0.
    SomeOfSix,
}

/// The bits `high:low` of a word, also where there are none.
#[tactic(auto, unfolding(crate::specs::Fields::field))]
fn bits(word: u32, high: u32, low: u32) -> u128
    ensures { result ≡ fields.field high low word }
{
    let width = (u64::from(high) + 1).saturating_sub(u64::from(low));
    part(low, width.min(128) as u32, u128::from(word))
}

impl Demand {
    ghost use Rattle.rv_table.specs.Compressed.{meets};

    /// Whether the word does what is asked.
    pub fn is_met(self, word: u32) -> bool
        ensures { result ≡ meets word self }
    {
        match self {
            Demand::Is(high, low, number) => bits(word, high, low) == u128::from(number),
            Demand::Isnt(high, low, number) => bits(word, high, low) != u128::from(number),
            Demand::SomeOfSix => bits(word, 12, 12) != 0 || bits(word, 6, 2) != 0,
        }
    }
}
