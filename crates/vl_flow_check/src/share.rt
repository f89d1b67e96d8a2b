ghost use Rattle.std.specs.Prelude.{◌≡◌, ◌++◌, ◌∷◌, ◌<◌, [], OnOk};
ghost use Rattle.fv_bit_sets.specs.Cells.{has};

use fv_bit_sets::Bits;
use fv_text::{Memory, Pos};

/// Bits that a driver has, with its place.
#[derive(Drop)]
pub(crate) struct Share {
    pub(crate) bits: Bits,
    pub(crate) pos: Pos,
}

impl Share {
    pub(crate) fn has(&self, cell: u64, bit: u32) -> bool
        requires { bit < 128 }
        ensures { result ≡ has self.now.bits cell bit }
    {
        (self.bits.mask(cell) >> bit) & 1 == 1
    }
}

pub(crate) fn push(shares: &mut Vec<Share>, share: Share) -> Result<(), Memory>
    ensures { OnOk result (shares.new.items ≡ shares.old.items ++ share ∷ []) }
{
    if shares.push(share).is_err() {
        return Err(Memory);
    }
    Ok(())
}
