ghost use Rattle.std.specs.Prelude.{◌≡◌, ◌≤◌, List, true};
ghost use Rattle.fv_bits.specs.Bits.{as_int};
ghost use Rattle.vl_mean.specs.Env.{cells_of};
ghost use Rattle.vl_size.specs.Size.{index_of, is_constant, no_names, operand_of, or_none, size};
ghost use Rattle.vl_size.specs.declared.decl.Decl.{Decl};

use vl_mean::{Env, value};
use vl_size::{Own, self_size, sign_of};
use vl_tree::Expr;

/// The size by itself; 0 where there is none.
fn own_size(expr: &Expr, env: &Env) -> u32
    ensures value { result ≡ or_none (size env.now.decls expr.now) }
    ensures few { result ≤ 128 }
{
    match self_size(expr, env.decls()) {
        None => 0,
        Some(size) => size,
    }
}

/// The value at the size and the sign that the expression has by itself.
fn own(expr: &Expr, env: &Env) -> Own
    ensures { as_int result.width result.signed result.number
        ≡ index_of (operand_of env.now.decls (cells_of env.now) expr.now) }
{
    let width = own_size(expr, env);
    let signed = sign_of(expr, env.decls());
    let number = value(expr, width, signed, env);
    Own {
        width,
        signed,
        number,
    }
}

/// A constant at its own size and sign, whatever is declared.
pub(crate) fn constant(expr: &Expr, bare: &Env) -> Own
    ensures { is_constant expr.now ≡ true → (ds : List Decl)
        → as_int result.width result.signed result.number ≡ index_of (operand_of ds no_names expr.now) }
{
    own(expr, bare)
}
