//! What is kept of a cell, by its masks.

ghost use Rattle.std.specs.Prelude.{◌≡◌, ◌≤◌, ◌<◌, ◌%◌};
ghost use Rattle.vl_lower_cell_laws.specs.Keeps as spec;
ghost use Rattle.wn_net.specs.Net.{IsInitOf};

use fv_bits::{low, ones};
use vl_lower_cell_laws::Keep;
use wn_net::Init;

/// Whether the mask has the bit.
pub(crate) fn has_bit(mask: u128, bit: u32) -> bool
    requires { bit < 128 }
    ensures { result ≡ spec.has_bit mask bit }
{
    (mask >> bit) & 1 == 1
}

/// Whether one register serves for so many lowest bits of the cell.
pub(crate) fn is_whole(keep: &Keep, width: u32) -> bool
    requires { width ≤ 128 }
    ensures { result ≡ spec.is_whole keep.now width }
{
    let known = low(width, keep.known);
    low(width, keep.driven) == 0 && (known == 0 || known == ones(width))
}

/// What the one register begins with.
pub(crate) fn whole_start(keep: &Keep, width: u32) -> Init
    requires { width ≤ 128 }
    ensures value { result ≡ (spec.whole_kept keep.now width).init }
    ensures fits { IsInitOf width result }
{
    if low(width, keep.known) == 0 {
        return Init::Free;
    }
    Init::Known(low(width, keep.value))
}

/// What the register of one bit begins with.
pub(crate) fn bit_start(keep: &Keep, bit: u32) -> Init
    requires { bit < 128 }
    ensures value { result ≡ (spec.kept_bit keep.now bit).init }
    ensures fits { IsInitOf 1 result }
{
    if !has_bit(keep.known, bit) {
        return Init::Free;
    }
    Init::Known((keep.value >> bit) & 1)
}
