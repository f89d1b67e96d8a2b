//! Declared ranges.
ghost use Rattle.std.specs.Prelude.{◌≡◌, ◌≤◌, ◌≤ℤ◌, IfOk, List};
ghost use Rattle.vl_size.specs.Table.{span};
ghost use Rattle.vl_mean.specs.Declarations.{bounds_of, vector_bounds, word_bounds};
ghost use Rattle.vl_mean.specs.Scopes.{Scope};
ghost use Rattle.vl_elab_const.specs.Numbers.{HaveNumbers};
ghost use Rattle.vl_elab_const.specs.InRange as spec;

use crate::bounds::bound_in;
use fv_text::Memory;
use std::alloc::Global;
use vl_elab_scope::Names;
use vl_tree::Range;

/// How many bits a declared range has, and its bounds.
#[derive(Clone, Copy)]
pub struct Extent {
    pub bits: u32,
    pub left: i64,
    pub right: i64,
}

fn pair_of(left: i64, right: i64) -> (i64, i64)
    ensures { result ≡ (left, right) }
{
    (left, right)
}

fn pair_in(alloc: Global, range: &Range, numbers: &Names) -> Result<(i64, i64), Memory>
    ensures { IfOk result (λ pair. (ss : List Scope) → HaveNumbers numbers.now ss
        → spec.AreBounds (bounds_of ss range.now) → pair ≡ bounds_of ss range.now) }
{
    let left = bound_in(alloc, &range.left, numbers)?;
    let right = bound_in(alloc, &range.right, numbers)?;
    Ok(pair_of(left, right))
}

/// As many as 128 where there are more, which is refused.
fn bits_between(left: i64, right: i64) -> u32
    ensures { span left right ≤ 128 → result ≡ span left right }
{
    let gap = left.abs_diff(right).min(127);
    gap as u32 + 1
}

fn extent_of(bounds: (i64, i64)) -> Extent
    ensures { spec.IsShort bounds → spec.Covers bounds result }
{
    let (left, right) = bounds;
    Extent {
        bits: bits_between(left, right),
        left,
        right,
    }
}

fn bounds_in(alloc: Global, range: &Option<Range>, numbers: &Names) -> Result<(i64, i64), Memory>
    ensures { IfOk result (λ pair. (ss : List Scope) → HaveNumbers numbers.now ss
        → spec.AreBounds (vector_bounds ss range.now) → pair ≡ vector_bounds ss range.now) }
{
    match range {
        None => Ok((0, 0)),
        Some(range) => pair_in(alloc, range, numbers),
    }
}

/// The extent of a declared range, where it is in range; that of a scalar is `[0:0]` (IEEE 1364-2005, section 3.3).
/// `numbers`: those of the constants over which bounds are read.
pub fn extent_in(alloc: Global, range: &Option<Range>, numbers: &Names) -> Result<Extent, Memory>
    ensures { IfOk result (λ extent. (ss : List Scope) → HaveNumbers numbers.now ss
        → spec.IsShort (vector_bounds ss range.now) → spec.Covers (vector_bounds ss range.now) extent) }
{
    let bounds = bounds_in(alloc, range, numbers)?;
    Ok(extent_of(bounds))
}

/// The bounds of a memory's words, where they are in range; None of what is no memory (IEEE 1364-2005, section 3.10).
pub fn words_in(
    alloc: Global,
    range: &Option<Range>,
    numbers: &Names,
) -> Result<Option<(i64, i64)>, Memory>
    ensures { IfOk result (λ words. (ss : List Scope) → HaveNumbers numbers.now ss
        → spec.AreWords (word_bounds ss range.now) → words ≡ word_bounds ss range.now) }
{
    match range {
        None => Ok(None),
        Some(range) => {
            let pair = pair_in(alloc, range, numbers)?;
            Ok(Some(pair))
        }
    }
}
