ghost use Rattle.std.specs.Prelude.{◌≡◌, ◌↔◌, ◌<◌, ◌≤◌, ◌^◌, IsTrue};

/// A number as it stands in a Verilog text (IEEE 1364-2005, section 3.5). Widths are in bits.
#[derive(Debug, Clone, Copy, PartialEq, Eq)]
pub struct Number {
    /// Whether the text states the width.
    pub sized: bool,
    pub signed: bool,
    pub width: u32,
    /// Bits that are wild or unknown are 0 here.
    pub value: u128,
    /// The bits of digits `z` and `?`.
    pub wild: u128,
    /// The bits of digits `x`.
    pub unknown: u128,
    pub ghost some_bits: { 1 ≤ width },
    pub ghost few_bits: { width ≤ 128 },
    pub ghost value_fits: { value < 2 ^ width },
    pub ghost wild_fits: { wild < 2 ^ width },
    pub ghost unknown_fits: { unknown < 2 ^ width },
}

impl Number {
    pub fn is(&self, other: &Number) -> bool
        ensures { IsTrue result ↔ (self.now ≡ other.now) }
    {
        self == other
    }
}
