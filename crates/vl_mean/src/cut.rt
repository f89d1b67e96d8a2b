ghost use Rattle.std.specs.Prelude.{◌≡◌};
ghost use Rattle.vl_mean.specs.Constants as spec;

use crate::const_number::Const;
use fv_bits::low;

impl Const {
    /// The lowest bits of a number; a width counts as one from 1 to 128.
    pub(crate) fn cut_to(width: u32, signed: bool, number: u128) -> Const
        ensures { result ≡ spec.cut_to width signed number }
    {
        let width = width.clamp(1, 128);
        Const {
            width,
            signed,
            value: low(width, number),
        }
    }
}
