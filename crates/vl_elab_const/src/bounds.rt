//! Bounds, over the numbers that constants have.
ghost use Rattle.std.specs.Prelude.{◌≡◌, true, IfOk};
ghost use Rattle.fv_bits.specs.Bits.{as_int};
ghost use Rattle.vl_size.specs.Size as size_spec;
ghost use Rattle.vl_elab_spec.specs.Meanings as meanings;

use crate::number::own_bound;
use fv_text::Memory;
use std::alloc::Global;
use vl_elab_scope::Names;
use vl_mean::widths::bound;
use vl_size::Own;
use vl_tree::Expr;

fn bound_or_none(own: Own) -> i64
    ensures { size_spec.is_bound (as_int own.width own.signed own.number) ≡ true
        → result ≡ as_int own.width own.signed own.number }
{
    match bound(own) {
        None => 0,
        Some(bound) => bound,
    }
}

/// A bound of 32 signed bits. Another one, which is refused, may be anything.
pub(crate) fn bound_in(alloc: Global, expr: &Expr, numbers: &Names) -> Result<i64, Memory>
    ensures { IfOk result (λ n. size_spec.is_bound (meanings.bound numbers.now expr.now) ≡ true
        → n ≡ meanings.bound numbers.now expr.now) }
{
    let own = own_bound(alloc, expr, numbers)?;
    Ok(bound_or_none(own))
}
