/// Where an expression stands: the size and the sign that it has there (IEEE 1364-2005, section 5.4). The size is
/// None where what gives it has none.
#[derive(Debug, Clone, Copy, PartialEq, Eq)]
pub struct Context {
    /// In bits.
    pub size: Option<u32>,
    pub signed: bool,
}
