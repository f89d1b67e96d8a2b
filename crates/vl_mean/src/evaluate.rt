//! The value of an expression.
ghost use Rattle.std.specs.Prelude.{◌≡◌, ◌<◌, ◌≤◌, ◌^◌, IfSome, is_none, if◌then◌else◌};
ghost use Rattle.std.specs.Option.{option_map};
ghost use Rattle.vl_tree.specs.Expr.{exprs, whole};
ghost use Rattle.vl_tree.specs.ExprView.{selects, with_select};
ghost use Rattle.fv_bits.specs.Bits.{as_int};
ghost use Rattle.vl_size.specs.Sign.{sign};
ghost use Rattle.vl_size.specs.Size as spec;
ghost use Rattle.vl_size.specs.Size.{or_none, some_bits};
ghost use Rattle.vl_size.specs.Way.{way};
ghost use Rattle.vl_mean.specs.Env.{cells_of};

use crate::env::Env;
use crate::join::repeated;
use crate::select::{indexed, part};
use fv_bits::{bit, complement, extended, negative};
use vl_size::operation::{arithmetic, compared, reduced, shifted};
use vl_size::place::selected_bit;
use vl_size::select::{appended, plus, some_bits};
use vl_size::{Decl, Own, self_size, sign_of};
use vl_tree::{BinaryOperator, Expr, ExprKind, Select, UnaryOperator};

/// The number that the expression has where its size and sign come from its context (IEEE 1364-2005, sections 5.4 and
/// 5.5): below `2 ^ width`. A context is at least as wide as the expression is by itself; what has no size by itself
/// has no meaning.
#[cycle(value)]
#[tactic(auto, using(vl_tree::specs::ExprFalls::parts_fall))]
pub fn value(expr: &Expr, width: u32, signed: bool, env: &Env) -> u128
    requires { width ≤ 128 }
    ensures value { result ≡ spec.value env.now.decls (cells_of env.now) width signed expr.now }
    ensures fits { result < 2 ^ width }
{
    match &expr.kind {
        ExprKind::Number(number) => extended(number.width, width, signed, number.value),
        ExprKind::Name(text, all) => match env.decls.named(text) {
            None => 0,
            Some(decl) => name_value(decl, all.as_slice(), width, signed, env),
        },
        ExprKind::Paren(inner) => value(inner, width, signed, env),
        ExprKind::Unary(operator, operand) => unary_value(*operator, operand, width, signed, env),
        ExprKind::Binary(operator, left, right) => binary_value(
            *operator, left, right, width, signed, env,
        ),
        ExprKind::Conditional(condition, first, second) => {
            if is_true(condition, env) {
                value(first, width, signed, env)
            } else {
                value(second, width, signed, env)
            }
        }
        ExprKind::Concat(parts) => match joined(parts.as_slice(), env) {
            None => 0,
            Some(part) => extended(part.width, width, signed, part.number),
        },
        ExprKind::Repeat(count, parts) => match joined(parts.as_slice(), env) {
            None => 0,
            Some(part) => repeated(own(count, env), part, width, signed),
        },
        ExprKind::Cast(_, operand) => {
            let own = own(operand, env);
            extended(own.width, width, signed, own.number)
        }
    }
}

#[cycle(value)]
fn unary_value(operator: UnaryOperator, operand: &Expr, width: u32, signed: bool, env: &Env) -> u128
    requires { width ≤ 128 }
    ensures value { let x = spec.operand_of env.now.decls (cells_of env.now) operand.now in
        result ≡ spec.unary_number operator width signed x }
    ensures fits { result < 2 ^ width }
{
    match operator {
        UnaryOperator::Plus => value(operand, width, signed, env),
        UnaryOperator::Minus => negative(width, value(operand, width, signed, env)),
        UnaryOperator::BitwiseNot => complement(width, value(operand, width, signed, env)),
        _ => {
            let own = own(operand, env);
            extended(
                1,
                width,
                signed,
                bit(reduced(operator, own.width, own.number)),
            )
        }
    }
}

#[cycle(value)]
fn binary_value(
    operator: BinaryOperator,
    left: &Expr,
    right: &Expr,
    width: u32,
    signed: bool,
    env: &Env,
) -> u128
    requires { width ≤ 128 }
    ensures value { let x = spec.operand_of env.now.decls (cells_of env.now) left.now in
        let y = spec.operand_of env.now.decls (cells_of env.now) right.now in
        result ≡ spec.binary_number (way operator) operator width signed x y }
    ensures fits { result < 2 ^ width }
{
    match operator {
        BinaryOperator::ShiftLeft
        | BinaryOperator::ShiftRight
        | BinaryOperator::ArithmeticShiftLeft
        | BinaryOperator::ArithmeticShiftRight => {
            let n = value(left, width, signed, env);
            shifted(operator, width, signed, n, own(right, env).number)
        }
        BinaryOperator::Less
        | BinaryOperator::LessEqual
        | BinaryOperator::Greater
        | BinaryOperator::GreaterEqual
        | BinaryOperator::Equal
        | BinaryOperator::NotEqual
        | BinaryOperator::CaseEqual
        | BinaryOperator::CaseNotEqual
        | BinaryOperator::LogicalAnd
        | BinaryOperator::LogicalOr => extended(
            1,
            width,
            signed,
            bit(tested(operator, left, right, env)),
        ),
        _ => {
            let m = value(left, width, signed, env);
            let n = value(right, width, signed, env);
            arithmetic(operator, width, signed, m, n)
        }
    }
}

/// Both operands at the larger of their sizes, signed where both are; of `&&` and `||` each by itself.
#[cycle(value)]
fn tested(operator: BinaryOperator, left: &Expr, right: &Expr, env: &Env) -> bool
    ensures { let x = spec.operand_of env.now.decls (cells_of env.now) left.now in
        let y = spec.operand_of env.now.decls (cells_of env.now) right.now in
        result ≡ spec.tested operator x y }
{
    match operator {
        BinaryOperator::LogicalAnd => is_true(left, env) && is_true(right, env),
        BinaryOperator::LogicalOr => is_true(left, env) || is_true(right, env),
        _ => {
            let width = own_size(left, env).max(own_size(right, env));
            let signed = sign_of(left, &env.decls) && sign_of(right, &env.decls);
            let m = value(left, width, signed, env);
            let n = value(right, width, signed, env);
            compared(operator, width, signed, m, n)
        }
    }
}

/// The size by itself; 0 where there is none.
pub(crate) fn own_size(expr: &Expr, env: &Env) -> u32
    ensures value { result ≡ or_none (spec.size env.now.decls expr.now) }
    ensures few { result ≤ 128 }
{
    match self_size(expr, &env.decls) {
        None => 0,
        Some(size) => size,
    }
}

/// Whether the value by itself isn't 0.
#[cycle(value)]
fn is_true(expr: &Expr, env: &Env) -> bool
    ensures { result ≡ spec.is_true (spec.operand_of env.now.decls (cells_of env.now) expr.now) }
{
    own(expr, env).number != 0
}

/// The value at the size and the sign that the expression has by itself.
#[cycle(value)]
pub(crate) fn own(expr: &Expr, env: &Env) -> Own
    ensures width { result.width ≡ or_none (spec.size env.now.decls expr.now) }
    ensures signed { result.signed ≡ sign env.now.decls expr.now }
    ensures number { result.number ≡ spec.value env.now.decls (cells_of env.now) result.width result.signed expr.now }
    ensures index { as_int result.width result.signed result.number
        ≡ spec.index_of (spec.operand_of env.now.decls (cells_of env.now) expr.now) }
{
    let width = own_size(expr, env);
    let signed = sign_of(expr, &env.decls);
    let number = value(expr, width, signed, env);
    Own {
        width,
        signed,
        number,
    }
}

/// The parts of a concatenation, joined to one number. None exactly where they have no size.
#[cycle(value)]
#[tactic(auto, using(crate::proofs::Joined::parts))]
fn joined(all: &[Expr], env: &Env) -> Option<Own>
    ensures sizes { option_map (λ own. own.width) result ≡ some_bits (spec.sizes env.now.decls (exprs all.now)) }
    ensures value { IfSome result (λ own. own.number
        ≡ spec.concatenated env.now.decls (cells_of env.now) (exprs all.now)) }
    ensures some { IfSome result (λ own. 1 ≤ own.width) }
{
    let mut width = 0;
    let mut number = 0;
    let mut place = all.len();
    while place > 0 {
        place -= 1;
        let more = self_size(&all[place], &env.decls)?;
        let longer = plus(more, width)?;
        number = appended(own(&all[place], env).number, more, width, number);
        width = longer;
    }
    let width = some_bits(width)?;
    Some(Own {
        width,
        signed: false,
        number,
    })
}

/// Of a memory, the first select takes the word.
#[cycle(value)]
fn name_value(decl: &Decl, all: &[Select], width: u32, signed: bool, env: &Env) -> u128
    requires few { width ≤ 128 }
    requires decl { decl.now.width ≤ 128 }
    ensures value { let ds = env.now.decls in
        let v = cells_of env.now in
        let ss = selects all.now in
        result ≡ (if is_none decl.now.words then spec.vector_value ds v width signed decl.now
        (v decl.now.name None) ss else spec.word_value ds v width signed decl.now ss) }
    ensures fits { result < 2 ^ width }
{
    if decl.words.is_none() {
        let number = env.get(&decl.name);
        return match all {
            [] => extended(decl.width, width, signed, number),
            [select] => select_value(decl, number, select, width, signed, env),
            [_, _, ..] => 0,
        };
    }
    match all {
        [Select::Bit(_, index)] => {
            let number = env.word(decl, own(index, env));
            extended(decl.width, width, signed, number)
        }
        [Select::Bit(_, index), select] => {
            let number = env.word(decl, own(index, env));
            select_value(decl, number, select, width, signed, env)
        }
        [Select::Bit(_, _), _, _, ..] => 0,
        [] | [Select::Part(_, _, _), ..] | [Select::Indexed(_, _, _), ..] => 0,
    }
}

/// The value of a select of a vector with this number.
#[cycle(value)]
#[tactic(auto, using(crate::proofs::SelectLemmas::few_bits_suffice))]
fn select_value(
    decl: &Decl,
    number: u128,
    select: &Select,
    width: u32,
    signed: bool,
    env: &Env,
) -> u128
    requires few { width ≤ 128 }
    requires decl { decl.now.width ≤ 128 }
    ensures value { result ≡ spec.vector_value env.now.decls (cells_of env.now) width signed decl.now number
        (with_select select.now whole) }
    ensures fits { result < 2 ^ width }
{
    match select {
        Select::Bit(_, index) => {
            let bit = selected_bit(decl, number, own(index, env));
            extended(1, width, signed, bit)
        }
        Select::Part(_, left, right) => {
            let part = part(decl, number, own(left, env), own(right, env));
            extended(part.width, width, signed, part.number)
        }
        Select::Indexed(_, start, count) => {
            let part = indexed(decl, number, own(start, env), own(count, env));
            extended(part.width, width, signed, part.number)
        }
    }
}
