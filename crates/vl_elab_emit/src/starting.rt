//! Values at first, written behind what is written before.
ghost use Rattle.std.specs.Prelude.{◌≡◌, ◌≤◌, IfOk, IfSome, OnOk, OnErr};
ghost use Rattle.vl_size.specs.Size as size_spec;
ghost use Rattle.vl_mean_flat.specs.FullNames.{flat_lval};
ghost use Rattle.vl_mean_flat.specs.Flattened as flattened;
ghost use Rattle.vl_elab_draft.specs.Written as written;
ghost use Rattle.vl_elab_emit.specs.Starts as spec;

use crate::bits::target_bits;
use crate::constants::{cut_to, number_at, sign, size};
use fv_text::Memory;
use std::alloc::Global;
use vl_elab_draft::{Draft, Scopes, flat_expr, flat_lval};
use vl_mean::{Const, Start};
use vl_tree::{Expr, Lval};

/// The number that a target begins with: that of a constant expression at the larger of both sizes, and at its own
/// sign (IEEE 1364-2005, sections 5.4 and 6.2.1).
#[tactic(auto, using(crate::proofs::Started::same_start))]
pub(crate) fn start_value(
    alloc: Global,
    target: &Lval,
    value: &Expr,
    scopes: &Scopes,
) -> Result<Const, Memory>
    requires { spec.IsStart scopes.now target.now value.now }
    ensures { IfOk result (λ c. c ≡ flattened.start_value scopes.now target.now value.now) }
{
    let bits = target_bits(alloc, target, scopes)?;
    let value = flat_expr(alloc, value, scopes)?;
    let width = or_none(bits).max(or_none(size(alloc, &value)));
    let signed = sign(alloc, &value);
    Ok(cut_to(width, signed, number_at(alloc, &value, width, signed)))
}

/// Of what has no size: 0.
fn or_none(bits: Option<u32>) -> u32
    requires { IfSome bits (λ n. n ≤ 128) }
    ensures value { result ≡ size_spec.or_none bits }
    ensures few { result ≤ 128 }
{
    match bits {
        None => 0,
        Some(bits) => bits,
    }
}

/// Writes a target with the value that it begins with. Where no memory is left nothing is written.
pub(crate) fn write_start(
    alloc: Global,
    target: &Lval,
    value: &Expr,
    scopes: &Scopes,
    draft: &mut Draft,
) -> Result<(), Memory>
    requires { spec.IsStart scopes.now target.now value.now }
    ensures ok { OnOk result (draft.new ≡ written.with_start draft.old (record {
      target = flat_lval scopes.now target.now;
      value = flattened.start_value scopes.now target.now value.now;
    })) }
    ensures err { OnErr result (draft.new ≡ draft.old) }
{
    let value = start_value(alloc, target, value, scopes)?;
    let target = flat_lval(alloc, target, scopes)?;
    draft.start(Start { target, value })
}
