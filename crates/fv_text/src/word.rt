ghost use Rattle.std.specs.Prelude.{
  ◌≡◌,
  ◌+◌,
  ◌*◌,
  ◌<◌,
  ◌≤◌,
  ◌^◌,
  ◌↔◌,
  IsSome,
  IfSome,
};

/// A number of a width from 1 to 128 bits.
#[derive(Debug, Clone, Copy, PartialEq, Eq)]
pub struct Word {
    pub width: u32,
    /// The 64 bits from the bit 64 on; a `u128` would be aligned to 16 bytes.
    pub high: u64,
    /// The lowest 64 bits.
    pub low: u64,
    pub ghost some_bits: { 1 ≤ width },
    pub ghost few_bits: { width ≤ 128 },
    pub ghost value_fits: { high * 2 ^ 64 + low < 2 ^ width },
}

impl Word {
    ghost use Rattle.fv_text.specs.Word.{number};

    /// None exactly where the width is 0 or above 128, or the value has more bits.
    pub fn new(width: u32, value: u128) -> Option<Word>
        ensures some { IsSome result ↔ ((1 ≤ width) × (width ≤ 128) × (value < 2 ^ width)) }
        ensures width { IfSome result (λ word. word.width ≡ width) }
        ensures value { IfSome result (λ word. number word ≡ value) }
    {
        if width == 0 || width > 128 {
            return None;
        }
        if width < 128 && value >> width != 0 {
            return None;
        }
        let high = (value >> 64) as u64;
        let low = (value % (1 << 64)) as u64;
        Some(Word { width, high, low })
    }

    /// In bits, from 1 to 128.
    pub fn width(&self) -> u32
        ensures { result ≡ self.now.width }
    {
        self.width
    }

    pub fn value(&self) -> u128
        ensures { result ≡ number self.now }
    {
        u128::from(self.high) * (1 << 64) + u128::from(self.low)
    }
}
