//! Declared ranges whose bounds are known.
ghost use Rattle.std.specs.Prelude.{◌≡◌, ◌&&◌, Some, None, IfOk, if◌then◌else◌};
ghost use Rattle.fv_bits.specs.Bits.{as_int};
ghost use Rattle.vl_size.specs.Size.{is_bound};
ghost use Rattle.vl_elab_params.specs.Known as spec;

use fv_text::Memory;
use std::alloc::Global;
use vl_elab_scope::{Names, value_of};
use vl_mean::widths::bound;
use vl_size::Own;
use vl_tree::Range;

/// A declared range of at most 128 bits; that of a scalar is `[0:0]`.
#[derive(Clone, Copy)]
pub struct Extent {
    pub bits: u32,
    pub left: i64,
    pub right: i64,
}

/// A declared range of any width.
#[derive(Clone, Copy)]
struct Bounds {
    bits: u64,
    left: i64,
    right: i64,
}

fn bounds_between(left: Own, right: Own) -> Option<Bounds>
    ensures { let l = as_int left.width left.signed left.number in
        let r = as_int right.width right.signed right.number in
        result ≡ (if is_bound l && is_bound r then Some (spec.bounds_of l r) else None) }
{
    let left = bound(left)?;
    let right = bound(right)?;
    Some(Bounds {
        bits: (left - right).unsigned_abs() + 1,
        left,
        right,
    })
}

/// Of at most 128 bits.
fn few_bits(bounds: Option<Bounds>) -> Option<Extent>
    ensures { result ≡ spec.few_bits bounds }
{
    match bounds {
        None => None,
        Some(bounds) => if bounds.bits <= 128 {
            Some(Extent {
                bits: bounds.bits as u32,
                left: bounds.left,
                right: bounds.right,
            })
        } else {
            None
        },
    }
}

fn extent_between(left: Own, right: Own) -> Option<Extent>
    ensures { let l = as_int left.width left.signed left.number in
        let r = as_int right.width right.signed right.number in
        result ≡ spec.extent_between l r }
{
    few_bits(bounds_between(left, right))
}

/// None exactly where a bound isn't a constant of 32 signed bits, or the range has more than 128 bits.
pub fn known_extent(
    alloc: Global,
    range: &Option<Range>,
    names: &Names,
) -> Result<Option<Extent>, Memory>
    ensures { IfOk result (λ e. e ≡ spec.known_extent names.now range.now) }
{
    match range {
        None => Ok(Some(Extent {
            bits: 1,
            left: 0,
            right: 0,
        })),
        Some(range) => {
            let left = value_of(alloc, &range.left, names)?;
            let right = value_of(alloc, &range.right, names)?;
            match left {
                None => Ok(None),
                Some(left) => match right {
                    None => Ok(None),
                    Some(right) => Ok(extent_between(left, right)),
                },
            }
        }
    }
}
