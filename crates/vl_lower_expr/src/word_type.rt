ghost use Rattle.std.specs.Prelude.{◌≤◌};

/// The size and the sign that an expression has from its context (IEEE 1364-2005, sections 5.4 and 5.5).
#[derive(Debug, Clone, Copy, PartialEq, Eq)]
pub struct WordType {
    /// In bits.
    pub width: u32,
    pub signed: bool,
    pub ghost some_bits: { 1 ≤ width },
    pub ghost few_bits: { width ≤ 128 },
}
