/// From its cell on, up to the next step, each cell has the bits of the mask.
#[derive(Debug, Clone, Copy, PartialEq, Eq)]
pub struct Step {
    pub(crate) cell: u64,
    pub(crate) mask: u128,
}
