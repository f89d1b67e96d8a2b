ghost use Rattle.std.specs.Prelude.{◌≡◌, ◌&&◌, ℕ, List, false};
ghost use Rattle.fv_text.specs.declared.pos.Pos.{Pos};
ghost use Rattle.vl_mean.specs.ConstantFaults.{capped};
ghost use Rattle.vl_flow_spec.specs.Weight as spec;
ghost use Rattle.vl_size.specs.Size as sizes;
ghost use Rattle.vl_size.specs.Divisors as divisors;
ghost use Rattle.vl_size.specs.Way.{way};
ghost use Rattle.vl_size.specs.declared.way.Way.TheVariants as w;
ghost use Rattle.vl_size.specs.declared.decl.Decl.{Decl};
ghost use Rattle.vl_tree.specs.Expr as e;
ghost use Rattle.vl_tree.specs.Expr.{Expr};
ghost use Rattle.vl_flow_weight.specs.Gates.{gates_at};
ghost use Rattle.vl_flow_weight.specs.Weighing.{binary_size_of, IsWeightOf, larger_size_of, unary_size_of};

use crate::gates::{Gates, operation, unary_operation};
use crate::weighed::{Weighed, bits_of};
use vl_size::Way;
use vl_size::way::{divides, keeps_size, size_by, way_of};
use vl_tree::{BinaryOperator, UnaryOperator};

/// Both, as one value.
fn both(first: bool, second: bool) -> bool
    ensures { result ≡ (first && second) }
{
    first && second
}

/// The size of an operation on one operand.
fn unary_size(operator: UnaryOperator, operand: Option<u32>) -> Option<u32>
    ensures { result ≡ unary_size_of operator operand }
{
    let bits = operand?;
    Some(if keeps_size(operator) { bits } else { 1 })
}

/// The gates of an operation on an operand that isn't constant.
fn unary_gates(operator: UnaryOperator, operand: Weighed) -> Gates
    ensures { (ds : List Decl) (p : Pos) (x : Expr) → IsWeightOf ds x operand → sizes.is_constant x ≡ false
        → (n : ℕ) → gates_at result n ≡ capped (spec.weight ds n (e.unary p operator x)) }
{
    let all = unary_operation(operator).with(&operand.gates);
    if keeps_size(operator) {
        return all;
    }
    Gates::fixed(all.at(bits_of(operand.size)))
}

/// An operation on one operand.
pub fn unary(operator: UnaryOperator, operand: Weighed) -> Weighed
    ensures { (ds : List Decl) (p : Pos) (x : Expr) → IsWeightOf ds x operand
        → IsWeightOf ds (e.unary p operator x) result }
{
    let size = unary_size(operator, operand.size);
    if operand.is_constant {
        return Weighed {
            size,
            is_constant: true,
            gates: Gates::fixed(0),
        };
    }
    Weighed {
        size,
        is_constant: false,
        gates: unary_gates(operator, operand),
    }
}

/// The size of an operation from those of its operands.
fn operation_size(
    operator: BinaryOperator,
    left: Option<u32>,
    right: Option<u32>,
    are_constant: bool,
) -> Option<u32>
    ensures { result ≡ binary_size_of operator left right are_constant }
{
    let m = left?;
    let n = right?;
    if !divides(operator) {
        return Some(size_by(way_of(operator), m, n));
    }
    let larger = m.max(n);
    if are_constant && larger <= 128 {
        Some(larger)
    } else {
        None
    }
}

fn is_logical(operator: BinaryOperator) -> bool
    ensures { result ≡ divisors.is_logical operator }
{
    matches!(
        operator,
        BinaryOperator::LogicalAnd | BinaryOperator::LogicalOr
    )
}

/// An operation of one bit on operands that aren't both constant.
fn test_gates(operator: BinaryOperator, left: Weighed, right: Weighed) -> Gates
    ensures { (ds : List Decl) (p : Pos) (x y : Expr) → IsWeightOf ds x left → IsWeightOf ds y right
        → way operator ≡ w.One → (sizes.is_constant x && sizes.is_constant y) ≡ false
        → (n : ℕ) → gates_at result n ≡ capped (spec.weight ds n (e.binary p operator x y)) }
{
    let here = operation(operator);
    let larger = bits_of(left.size).max(bits_of(right.size));
    if is_logical(operator) {
        let operands = Gates::fixed(left.own()).with(&Gates::fixed(right.own()));
        return Gates::fixed(here.at(larger)).with(&operands);
    }
    let all = here.with(&left.gates.with(&right.gates));
    Gates::fixed(all.at(larger))
}

/// The gates of operands that aren't both constant, and of the operation.
fn operated(operator: BinaryOperator, left: Weighed, right: Weighed) -> Gates
    ensures { (ds : List Decl) (p : Pos) (x y : Expr) → IsWeightOf ds x left → IsWeightOf ds y right
        → (sizes.is_constant x && sizes.is_constant y) ≡ false
        → (n : ℕ) → gates_at result n ≡ capped (spec.weight ds n (e.binary p operator x y)) }
{
    match way_of(operator) {
        Way::Larger => operation(operator).with(&left.gates.with(&right.gates)),
        Way::Left => operation(operator).with(&left.gates.with(&Gates::fixed(right.own()))),
        Way::One => test_gates(operator, left, right),
    }
}

/// An operation on two operands.
pub fn binary(operator: BinaryOperator, left: Weighed, right: Weighed) -> Weighed
    ensures { (ds : List Decl) (p : Pos) (x y : Expr) → IsWeightOf ds x left → IsWeightOf ds y right
        → IsWeightOf ds (e.binary p operator x y) result }
{
    let is_constant = both(left.is_constant, right.is_constant);
    let size = operation_size(operator, left.size, right.size, is_constant);
    if is_constant {
        return Weighed {
            size,
            is_constant: true,
            gates: Gates::fixed(0),
        };
    }
    Weighed {
        size,
        is_constant: false,
        gates: operated(operator, left, right),
    }
}

/// The larger size of two alternatives, where the condition has a size too.
fn both_sizes(condition: Option<u32>, first: Option<u32>, second: Option<u32>) -> Option<u32>
    ensures { result ≡ larger_size_of condition first second }
{
    let _bits = condition?;
    let m = first?;
    let n = second?;
    Some(m.max(n))
}

/// The gates of a choice whose parts aren't all constant.
fn choice_gates(condition: Weighed, first: Weighed, second: Weighed) -> Gates
    ensures { (ds : List Decl) (p : Pos) (c x y : Expr) → IsWeightOf ds c condition → IsWeightOf ds x first
        → IsWeightOf ds y second
        → (sizes.is_constant c && (sizes.is_constant x && sizes.is_constant y)) ≡ false
        → (n : ℕ) → gates_at result n ≡ capped (spec.weight ds n (e.conditional p c x y)) }
{
    let parts = Gates::fixed(condition.own()).with(&first.gates);
    let inner = parts.with(&second.gates);
    Gates::per_bit(1).with(&inner)
}

/// A choice by a condition.
pub fn conditional(condition: Weighed, first: Weighed, second: Weighed) -> Weighed
    ensures { (ds : List Decl) (p : Pos) (c x y : Expr) → IsWeightOf ds c condition → IsWeightOf ds x first
        → IsWeightOf ds y second → IsWeightOf ds (e.conditional p c x y) result }
{
    let alternatives = both(first.is_constant, second.is_constant);
    let is_constant = both(condition.is_constant, alternatives);
    let size = both_sizes(condition.size, first.size, second.size);
    if is_constant {
        return Weighed {
            size,
            is_constant: true,
            gates: Gates::fixed(0),
        };
    }
    Weighed {
        size,
        is_constant: false,
        gates: choice_gates(condition, first, second),
    }
}
