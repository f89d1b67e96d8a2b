//! Which of several refusals is answered.
ghost use Rattle.std.specs.Prelude.{◌≡◌, IfOk};
ghost use Rattle.vl_elab_spec.specs.declared.elab_fault.ElabFault.TheVariants as f;
ghost use Rattle.vl_elab_spec.specs.Expressions as expressions;
ghost use Rattle.vl_elab_spec.specs.Refused as spec;

use fv_text::{Memory, Pos, Text};
use std::alloc::Global;
use vl_elab_spec::{ElabFault, refusal_number};
use vl_size::earlier::is_earlier;

/// Of the refusals of two parts: the lower number, or of one number the earlier place; of two alike the first.
pub fn first_of(first: Option<ElabFault>, second: Option<ElabFault>) -> Option<ElabFault>
    ensures { result ≡ spec.lower_of first second }
{
    match (first, second) {
        (None, second) => second,
        (Some(first), None) => Some(first),
        (Some(first), Some(second)) => if comes_before(&first, &second) {
            Some(second)
        } else {
            Some(first)
        },
    }
}

/// Whether the second one comes before the first.
fn comes_before(first: &ElabFault, second: &ElabFault) -> bool
    ensures { result ≡ spec.comes_before first.now second.now }
{
    let above = refusal_number(first);
    let below = refusal_number(second);
    if below < above {
        return true;
    }
    below == above && is_earlier(place(second), place(first))
}

fn place(fault: &ElabFault) -> Pos
    ensures { result ≡ spec.place fault.now }
{
    match fault {
        ElabFault::Twice(_, pos) | ElabFault::Unknown(_, pos) | ElabFault::Port(_, pos) => *pos,
        ElabFault::Param(_, pos) | ElabFault::Kind(_, pos) => *pos,
        ElabFault::Range(pos) | ElabFault::GenLoop(pos) | ElabFault::Clock(pos) => *pos,
        ElabFault::NotConstant(pos) | ElabFault::ZeroDivisor(pos) => *pos,
        ElabFault::TooWide(pos, _) => *pos,
        ElabFault::TooLarge(pos) => *pos,
        ElabFault::NoModule(_) | ElabFault::Recursive(_) | ElabFault::TooManyBits(_) => Pos {
            file: 0,
            line: 0,
            col: 0,
        },
    }
}

/// A select, bound or count that isn't right, where the test says so.
pub fn range_if(test: bool, pos: Pos) -> Option<ElabFault>
    ensures { result ≡ spec.lowest (expressions.refused_if test (f.Range pos)) }
{
    if test {
        Some(ElabFault::Range(pos))
    } else {
        None
    }
}

/// The clock where it may not be used, where the test says so.
pub fn clock_if(test: bool, pos: Pos) -> Option<ElabFault>
    ensures { result ≡ spec.lowest (expressions.refused_if test (f.Clock pos)) }
{
    if test {
        Some(ElabFault::Clock(pos))
    } else {
        None
    }
}

pub(crate) fn not_constant_if(test: bool, pos: Pos) -> Option<ElabFault>
    ensures { result ≡ spec.lowest (expressions.refused_if test (f.NotConstant pos)) }
{
    if test {
        Some(ElabFault::NotConstant(pos))
    } else {
        None
    }
}

/// More than 128 bits.
pub fn too_wide(pos: Pos, width: Option<u64>) -> Option<ElabFault>
    ensures { result ≡ spec.lowest (expressions.too_wide pos width) }
{
    match width {
        None => None,
        Some(bits) => if bits <= 128 {
            None
        } else {
            Some(ElabFault::TooWide(pos, bits))
        },
    }
}

/// A name that stands twice, at the second, where the test says so.
pub fn twice_if(
    alloc: Global,
    test: bool,
    text: &Text,
    pos: Pos,
) -> Result<Option<ElabFault>, Memory>
    ensures { IfOk result (λ g. g ≡ spec.lowest (expressions.refused_if test (f.Twice text.now pos))) }
{
    if !test {
        return Ok(None);
    }
    Ok(Some(ElabFault::Twice(text.copied(alloc)?, pos)))
}

/// A value for a parameter that isn't there, where the test says so.
pub fn parameter_if(
    alloc: Global,
    test: bool,
    text: &Text,
    pos: Pos,
) -> Result<Option<ElabFault>, Memory>
    ensures { IfOk result (λ g. g ≡ spec.lowest (expressions.refused_if test (f.Param text.now pos))) }
{
    if !test {
        return Ok(None);
    }
    Ok(Some(ElabFault::Param(text.copied(alloc)?, pos)))
}

/// A name that may not be assigned there, where the test says so.
pub fn kind_if(
    alloc: Global,
    test: bool,
    text: &Text,
    pos: Pos,
) -> Result<Option<ElabFault>, Memory>
    ensures { IfOk result (λ g. g ≡ spec.lowest (expressions.refused_if test (f.Kind text.now pos))) }
{
    if !test {
        return Ok(None);
    }
    Ok(Some(ElabFault::Kind(text.copied(alloc)?, pos)))
}

pub fn divided_by_zero(place: Option<Pos>) -> Option<ElabFault>
    ensures { result ≡ spec.lowest (expressions.divided_by_zero place) }
{
    match place {
        None => None,
        Some(pos) => Some(ElabFault::ZeroDivisor(pos)),
    }
}
