ghost use Rattle.std.specs.Prelude.{◌≡◌};
ghost use Rattle.vl_size.specs.Size as sizes;
ghost use Rattle.vl_flow_weight.specs.Gates.{gates_at};

use crate::gates::Gates;

/// What an expression weighs.
#[derive(Debug, Clone, Copy)]
pub struct Weighed {
    /// Its own size in bits. None where it has none.
    pub size: Option<u32>,
    /// Whether no name stands in it.
    pub is_constant: bool,
    pub gates: Gates,
}

/// No bits where there is no size.
pub fn bits_of(size: Option<u32>) -> u64
    ensures { result ≡ sizes.or_none size }
{
    match size {
        None => 0,
        Some(bits) => u64::from(bits),
    }
}

impl Weighed {
    /// With so many bits from its context.
    pub fn at(&self, bits: u64) -> u64
        ensures { result ≡ gates_at self.now.gates bits }
    {
        self.gates.at(bits)
    }

    /// With as many bits as it has by itself.
    pub(crate) fn own(&self) -> u64
        ensures { result ≡ gates_at self.now.gates (sizes.or_none self.now.size) }
    {
        self.gates.at(bits_of(self.size))
    }
}
