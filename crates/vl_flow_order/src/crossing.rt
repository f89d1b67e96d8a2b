ghost use Rattle.std.specs.Prelude.{◌≡◌, ◌∷◌, [], length, IfOk};
ghost use Rattle.vl_flow_order.specs.Sets.{IsCrossing, IsJoined};

use fv_bit_sets::Bits;
use fv_text::Memory;
use std::alloc::Global;

/// Of two rows of sets the bits of the first row, those of the second, and those that one of the first and another one
/// of the second have.
#[derive(Debug, Drop)]
pub struct Crossing {
    pub first: Bits,
    pub second: Bits,
    pub both: Bits,
}

impl Crossing {
    fn none(alloc: Global) -> Crossing
        ensures { IsCrossing [] [] result }
    {
        Crossing {
            first: Bits::none(alloc),
            second: Bits::none(alloc),
            both: Bits::none(alloc),
        }
    }
}

/// Of one set in each row.
fn of_one(alloc: Global, first: &Bits, second: &Bits) -> Result<Crossing, Memory>
    ensures { IfOk result (IsCrossing (first.now ∷ []) (second.now ∷ [])) }
{
    let none = Bits::none(alloc);
    let first = first.with(&none)?;
    let second = second.with(&none)?;
    Ok(Crossing {
        first,
        second,
        both: none,
    })
}

/// Of rows one behind the other.
fn joined(left: &Crossing, right: &Crossing) -> Result<Crossing, Memory>
    ensures { IfOk result (IsJoined left.now right.now) }
{
    let first = left.first.with(&right.first)?;
    let second = left.second.with(&right.second)?;
    let inside = left.both.with(&right.both)?;
    let forth = left.first.shared_with(&right.second)?;
    let back = right.first.shared_with(&left.second)?;
    let across = forth.with(&back)?;
    let both = inside.with(&across)?;
    Ok(Crossing {
        first,
        second,
        both,
    })
}

/// Of two rows that are as long: both halves first, so that time is about linear in them.
pub fn crossing_of(alloc: Global, firsts: &[Bits], seconds: &[Bits]) -> Result<Crossing, Memory>
    requires { length firsts.now ≡ length seconds.now }
    ensures { IfOk result (IsCrossing firsts.now seconds.now) }
{
    if firsts.len() == 0 {
        return Ok(Crossing::none(alloc));
    }
    if firsts.len() == 1 {
        return Ok(of_one(alloc, &firsts[0], &seconds[0])?);
    }
    let middle = firsts.len() / 2;
    let left = crossing_of(alloc, &firsts[..middle], &seconds[..middle])?;
    let right = crossing_of(alloc, &firsts[middle..], &seconds[middle..])?;
    Ok(joined(&left, &right)?)
}
