ghost use Rattle.std.specs.Prelude.{◌<◌, ◌≤◌, ◌^◌};

/// The value of a constant expression, at its own size and sign (IEEE 1364-2005, section 4.2.1).
#[derive(Debug, Clone, Copy, PartialEq, Eq)]
pub struct Const {
    /// In bits.
    pub width: u32,
    pub signed: bool,
    pub value: u128,
    pub ghost some_bits: { 1 ≤ width },
    pub ghost few_bits: { width ≤ 128 },
    pub ghost fits: { value < 2 ^ width },
}
