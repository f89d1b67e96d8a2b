ghost use Rattle.std.specs.Prelude.{◌≡◌, ◌&&◌};
ghost use Rattle.vl_flow_weight.specs.Weighing.{IsWeightOf};
ghost use Rattle.vl_mean.specs.ConstantFaults.{capped};
ghost use Rattle.vl_flow_spec.specs.Weight as spec;
ghost use Rattle.vl_tree.specs.Expr.{exprs, whole};
ghost use Rattle.vl_tree.specs.ExprView.{selects, with_select};
ghost use Rattle.vl_flow_weight.specs.Shares.{ArePartsOf};

use crate::access::access_weight;
use crate::gates::Gates;
use crate::operations::{binary, conditional, unary};
use crate::weighed::Weighed;
use vl_mean::widths::plus;
use vl_size::{Decls, self_size};
use vl_tree::{Expr, ExprKind, Select};

/// Parts of a concatenation.
#[derive(Debug, Clone, Copy)]
pub(crate) struct Parts {
    pub(crate) weight: u64,
    /// Whether no name stands in them.
    pub(crate) are_constant: bool,
}

/// Both, as one value.
fn both(first: bool, second: bool) -> bool
    ensures { result ≡ (first && second) }
{
    first && second
}

/// What an expression weighs, by the bits that it has from its context. Time is about linear in it.
#[cycle(weigh)]
#[tactic(auto, using(vl_tree::specs::ExprFalls::parts_fall))]
pub(crate) fn weigh(expr: &Expr, decls: &Decls) -> Weighed
    ensures { IsWeightOf decls.now expr.now result }
{
    match &expr.kind {
        ExprKind::Number(number) => Weighed {
            size: Some(number.width),
            is_constant: true,
            gates: Gates::fixed(0),
        },
        ExprKind::Name(text, all) => {
            let size = self_size(expr, decls);
            let access = access_weight(text, all.as_slice(), decls);
            let indices = indices_weight(all.as_slice(), decls);
            Weighed {
                size,
                is_constant: false,
                gates: Gates::fixed(plus(access, indices)),
            }
        }
        ExprKind::Paren(inner) => weigh(inner, decls),
        ExprKind::Unary(operator, operand) => unary(*operator, weigh(operand, decls)),
        ExprKind::Binary(operator, left, right) => {
            binary(*operator, weigh(left, decls), weigh(right, decls))
        }
        ExprKind::Conditional(condition, first, second) => conditional(
            weigh(condition, decls),
            weigh(first, decls),
            weigh(second, decls),
        ),
        ExprKind::Concat(parts) => {
            let size = self_size(expr, decls);
            let parts = weigh_parts(parts.as_slice(), decls);
            Weighed {
                size,
                is_constant: parts.are_constant,
                gates: Gates::fixed(parts.weight),
            }
        }
        ExprKind::Repeat(count, parts) => {
            let size = self_size(expr, decls);
            let count = weigh(count, decls);
            let parts = weigh_parts(parts.as_slice(), decls);
            Weighed {
                size,
                is_constant: both(count.is_constant, parts.are_constant),
                gates: Gates::fixed(parts.weight),
            }
        }
        ExprKind::Cast(_, operand) => {
            let operand = weigh(operand, decls);
            Weighed {
                size: operand.size,
                is_constant: operand.is_constant,
                gates: Gates::fixed(operand.own()),
            }
        }
    }
}

/// Each with the bits that it has by itself.
#[cycle(weigh)]
fn weigh_parts(all: &[Expr], decls: &Decls) -> Parts
    ensures { ArePartsOf decls.now (exprs all.now) result }
{
    let mut weight = 0;
    let mut are_constant = true;
    for part in all {
        let weighed = weigh(part, decls);
        weight = plus(weight, weighed.own());
        are_constant = both(are_constant, weighed.is_constant);
    }
    Parts {
        weight,
        are_constant,
    }
}

/// What the varying indices of selects weigh.
#[cycle(weigh)]
pub(crate) fn indices_weight(all: &[Select], decls: &Decls) -> u64
    ensures { result ≡ capped (spec.selects_weight decls.now (selects all.now)) }
{
    let mut weight = 0;
    for select in all {
        weight = plus(weight, index_weight(select, decls));
    }
    weight
}

#[cycle(weigh)]
fn index_weight(select: &Select, decls: &Decls) -> u64
    ensures { result ≡ capped (spec.selects_weight decls.now (with_select select.now whole)) }
{
    match select {
        Select::Bit(_, index) => weigh(index, decls).own(),
        Select::Part(_, _, _) => 0,
        Select::Indexed(_, start, _) => weigh(start, decls).own(),
    }
}
