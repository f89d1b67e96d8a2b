ghost use Rattle.std.specs.Prelude.{◌<◌, ◌≤◌, ◌^◌};

/// A number of at most 128 bits, at the size and the sign that it has by itself.
#[derive(Debug, Clone, Copy)]
pub struct Own {
    /// In bits.
    pub width: u32,
    pub signed: bool,
    pub number: u128,
    pub ghost few_bits: { width ≤ 128 },
    pub ghost fits: { number < 2 ^ width },
}
