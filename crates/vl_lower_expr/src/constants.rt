//! Constants, which have one value whatever is declared.
#![tactic(auto, using(wn_net::proofs::Laws::additions))]

ghost use Rattle.std.specs.Prelude.{◌≡◌, ◌<◌, ◌≤◌, ◌^◌, List, true, IfOk};
ghost use Rattle.fv_bits.specs.Bits.{as_int};
ghost use Rattle.vl_size.specs.Size as spec;
ghost use Rattle.vl_size.specs.Size.{Cells};
ghost use Rattle.vl_size.specs.declared.decl.Decl.{Decl};
ghost use Rattle.wn_net.specs.Changes.{AddsNodes, Shows};

use crate::bindings::Bindings;
use crate::word_type::WordType;
use fv_text::Memory;
use vl_lower_nodes::number;
use vl_mean::{Env, value};
use vl_size::{Own, self_size, sign_of};
use vl_tree::Expr;
use wn_net::{Net, NodeId};

/// The number of a constant in a context.
fn constant_value(expr: &Expr, width: u32, signed: bool, env: &Env) -> u128
    requires constant { spec.is_constant expr.now ≡ true }
    requires few { width ≤ 128 }
    ensures value { (ds : List Decl) (v : Cells) → result ≡ spec.value ds v width signed expr.now }
    ensures fits { result < 2 ^ width }
{
    value(expr, width, signed, env)
}

/// The node of a constant.
pub(crate) fn constant_node(
    net: &mut Net,
    names: Bindings<'_>,
    expr: &Expr,
    kind: WordType,
) -> Result<NodeId, Memory>
    requires { spec.is_constant expr.now ≡ true }
    ensures adds { AddsNodes net.old net.new }
    ensures shows { (ds : List Decl) (v : Cells) → IfOk result (Shows net.old net.new kind.width
        (λ g. spec.value ds v kind.width kind.signed expr.now)) }
{
    let value = constant_value(expr, kind.width, kind.signed, names.env);
    let node = number(net, kind.width, value)?;
    Ok(node)
}

/// The size of a constant by itself; 0 where there is none.
fn own_size(expr: &Expr, names: Bindings<'_>) -> u32
    ensures value { result ≡ spec.or_none (spec.size names.entry.decls.now expr.now) }
    ensures few { result ≤ 128 }
{
    match self_size(expr, names.decls) {
        None => 0,
        Some(size) => size,
    }
}

/// A constant at the size and the sign that it has by itself.
pub fn constant(expr: &Expr, names: Bindings<'_>) -> Own
    requires { spec.is_constant expr.now ≡ true }
    ensures { (v : Cells) → as_int result.width result.signed result.number
        ≡ spec.index_of (spec.operand_of names.entry.decls.now v expr.now) }
{
    let width = own_size(expr, names);
    let signed = sign_of(expr, names.decls);
    let number = constant_value(expr, width, signed, names.env);
    Own {
        width,
        signed,
        number,
    }
}
