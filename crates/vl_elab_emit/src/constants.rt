//! Constants: expressions in which no name stands.
ghost use Rattle.std.specs.Prelude.{◌≡◌, ◌<◌, ◌≤◌, ◌^◌, [], IfSome};
ghost use Rattle.vl_size.specs.Sign as signs;
ghost use Rattle.vl_size.specs.Size as spec;
ghost use Rattle.vl_size.specs.Size.{no_names};
ghost use Rattle.vl_mean.specs.Constants as constants;
ghost use Rattle.vl_elab_emit.specs.Starts as starts;

use fv_bits::low;
use std::alloc::Global;
use vl_mean::{Const, Env, value};
use vl_size::{Decls, Own, self_size, sign_of};
use vl_tree::Expr;

/// The size that a constant has by itself. None exactly where it has none.
pub(crate) fn size(alloc: Global, expr: &Expr) -> Option<u32>
    ensures value { result ≡ spec.size [] expr.now }
    ensures few { IfSome result (λ m. m ≤ 128) }
{
    self_size(expr, &Decls::new(alloc))
}

/// Whether a constant is signed.
pub(crate) fn sign(alloc: Global, expr: &Expr) -> bool
    ensures { result ≡ signs.sign [] expr.now }
{
    sign_of(expr, &Decls::new(alloc))
}

/// The number of a constant where its size and sign come from its context.
pub(crate) fn number_at(alloc: Global, expr: &Expr, width: u32, signed: bool) -> u128
    requires { width ≤ 128 }
    ensures value { result ≡ spec.value [] no_names width signed expr.now }
    ensures fits { result < 2 ^ width }
{
    let env = Env::new(alloc, Decls::new(alloc));
    value(expr, width, signed, &env)
}

/// A constant by itself. None exactly where it has no size.
#[tactic(auto, using(crate::proofs::Indices::owns))]
pub(crate) fn own(alloc: Global, expr: &Expr) -> Option<Own>
    ensures { starts.IsOwn expr.now result }
{
    let width = size(alloc, expr)?;
    let signed = sign(alloc, expr);
    let number = number_at(alloc, expr, width, signed);
    Some(Own {
        width,
        signed,
        number,
    })
}

/// The lowest bits of a number; a width counts as one from 1 to 128.
pub(crate) fn cut_to(width: u32, signed: bool, number: u128) -> Const
    ensures { result ≡ constants.cut_to width signed number }
{
    let width = width.clamp(1, 128);
    Const {
        width,
        signed,
        value: low(width, number),
    }
}
