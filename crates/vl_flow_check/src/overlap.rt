ghost use Rattle.std.specs.Prelude.{[], IfOk};
ghost use Rattle.vl_flow_check.specs.Shares.{IsJoined, IsOverlapOf};

use crate::share::Share;
use fv_bit_sets::Bits;
use fv_text::Memory;
use std::alloc::Global;

/// The bits that some share has, and those that two have.
#[derive(Drop)]
pub(crate) struct Overlap {
    pub(crate) some: Bits,
    pub(crate) two: Bits,
}

impl Overlap {
    fn none(alloc: Global) -> Overlap
        ensures { IsOverlapOf [] result }
    {
        Overlap {
            some: Bits::none(alloc),
            two: Bits::none(alloc),
        }
    }
}

/// Of shares one behind the other.
fn joined(left: &Overlap, right: &Overlap) -> Result<Overlap, Memory>
    ensures { IfOk result (IsJoined left.now right.now) }
{
    let some = left.some.with(&right.some)?;
    let inside = left.two.with(&right.two)?;
    let across = left.some.shared_with(&right.some)?;
    let two = inside.with(&across)?;
    Ok(Overlap { some, two })
}

/// Both halves first, so that time is about linear in the shares.
pub(crate) fn overlap_of(alloc: Global, shares: &[Share]) -> Result<Overlap, Memory>
    ensures { IfOk result (IsOverlapOf shares.now) }
{
    if shares.len() == 0 {
        return Ok(Overlap::none(alloc));
    }
    if shares.len() == 1 {
        let none = Bits::none(alloc);
        let some = shares[0].bits.with(&none)?;
        return Ok(Overlap { some, two: none });
    }
    let middle = shares.len() / 2;
    let left = overlap_of(alloc, &shares[..middle])?;
    let right = overlap_of(alloc, &shares[middle..])?;
    Ok(joined(&left, &right)?)
}
