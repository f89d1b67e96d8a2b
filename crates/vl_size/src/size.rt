//! The size of an expression, and the value of a constant one, which a size may need.
ghost use Rattle.std.specs.Prelude.{
  ◌≡◌,
  ◌<◌,
  ◌≤◌,
  ◌^◌,
  true,
  false,
  Option,
  IfSome,
  is_none,
  if◌then◌else◌,
};
ghost use Rattle.std.specs.Option.{option_map};
ghost use Rattle.fv_text.specs.declared.pos.Pos.{Pos};
ghost use Rattle.vl_tree.specs.Expr.{exprs, whole, unary, binary};
ghost use Rattle.vl_tree.specs.ExprView.{selects, with_select};
ghost use Rattle.vl_size.specs.Sign.{sign};
ghost use Rattle.vl_size.specs.Size as spec;
ghost use Rattle.vl_size.specs.Size.{no_names, some_bits};
ghost use Rattle.vl_size.specs.Way.{way};
ghost use Rattle.vl_size.specs.Rows.{IsRow};

use crate::constant::is_constant;
use crate::decl::Decl;
use crate::decls::Decls;
use crate::numbers::Numbers;
use crate::operation::{compared, reduced};
use crate::own::Own;
use crate::select::{appended, part_size, plus, repeated, some_bits, times};
use crate::sign::sign_of;
use crate::way::{Way, divides, keeps_size, size_by, way_of};
use fv_bits::bit;
use vl_tree::{BinaryOperator, Expr, ExprKind, Select, UnaryOperator};

/// The size that an expression or a part of one has by itself, from 1 to 128 bits (IEEE 1364-2005, section 5.4),
/// whatever its divisors are. None exactly where a name in it isn't declared, a node in it isn't valid by itself or a
/// size is above 128.
#[cycle(size)]
#[tactic(auto, using(vl_tree::specs::ExprFalls::parts_fall))]
pub fn self_size(expr: &Expr, decls: &Decls) -> Option<u32>
    ensures value { result ≡ spec.size decls.now expr.now }
    ensures range { IfSome result (λ m. (1 ≤ m) × (m ≤ 128)) }
{
    match &expr.kind {
        ExprKind::Number(number) => Some(number.width),
        ExprKind::Name(text, all) => {
            let decl = decls.named(text)?;
            selected_size(decl, all.as_slice(), decls)
        }
        ExprKind::Paren(inner) => self_size(inner, decls),
        ExprKind::Unary(operator, operand) => {
            let size = self_size(operand, decls)?;
            Some(if keeps_size(*operator) { size } else { 1 })
        }
        ExprKind::Binary(operator, left, right) => binary_size(*operator, left, right, decls),
        ExprKind::Conditional(condition, first, second) => {
            self_size(condition, decls)?;
            let m = self_size(first, decls)?;
            let n = self_size(second, decls)?;
            Some(m.max(n))
        }
        ExprKind::Concat(parts) => some_bits(sizes_of(parts.as_slice(), decls)?),
        ExprKind::Repeat(count, parts) => {
            let copies = own(count, decls)?;
            let size = some_bits(sizes_of(parts.as_slice(), decls)?)?;
            if !is_constant(count) {
                return None;
            }
            times(copies, size)
        }
        ExprKind::Cast(_, operand) => self_size(operand, decls),
    }
}

#[cycle(size)]
fn binary_size(operator: BinaryOperator, left: &Expr, right: &Expr, decls: &Decls) -> Option<u32>
    ensures value { (p : Pos) → result ≡ spec.size decls.now (binary p operator left.now right.now) }
    ensures range { IfSome result (λ m. (1 ≤ m) × (m ≤ 128)) }
{
    if divides(operator) {
        return quotient_size(operator, left, right, decls);
    }
    let m = self_size(left, decls)?;
    let n = self_size(right, decls)?;
    Some(size_by(way_of(operator), m, n))
}

/// A quotient and a remainder are of constants.
#[cycle(size)]
fn quotient_size(operator: BinaryOperator, left: &Expr, right: &Expr, decls: &Decls) -> Option<u32>
    requires { spec.divides operator ≡ true }
    ensures value { (p : Pos) → result ≡ spec.size decls.now (binary p operator left.now right.now) }
    ensures range { IfSome result (λ m. (1 ≤ m) × (m ≤ 128)) }
{
    let m = self_size(left, decls)?;
    let n = self_size(right, decls)?;
    if !is_constant(left) || !is_constant(right) {
        return None;
    }
    Some(m.max(n))
}

/// The sum of the sizes of the parts.
#[cycle(size)]
#[tactic(auto, using(crate::proofs::Rest::parts))]
fn sizes_of(all: &[Expr], decls: &Decls) -> Option<u32>
    ensures value { result ≡ spec.sizes decls.now (exprs all.now) }
    ensures few { IfSome result (λ m. m ≤ 128) }
{
    let mut sum = 0;
    for part in all {
        sum = plus(sum, self_size(part, decls)?)?;
    }
    Some(sum)
}

/// Of a memory, the first select takes the word.
#[cycle(size)]
fn selected_size(decl: &Decl, all: &[Select], decls: &Decls) -> Option<u32>
    requires some { 1 ≤ decl.now.width }
    requires few { decl.now.width ≤ 128 }
    ensures value { let ss = selects all.now in
        result ≡ (if is_none decl.now.words then spec.vector_size decls.now decl.now ss
        else spec.word_size decls.now decl.now ss) }
    ensures range { IfSome result (λ m. (1 ≤ m) × (m ≤ 128)) }
{
    if decl.words.is_none() {
        return match all {
            [] => Some(decl.width),
            [select] => select_size(decl, select, decls),
            [_, _, ..] => None,
        };
    }
    match all {
        [Select::Bit(_, index)] => {
            self_size(index, decls)?;
            Some(decl.width)
        }
        [Select::Bit(_, index), select] => {
            self_size(index, decls)?;
            select_size(decl, select, decls)
        }
        _ => None,
    }
}

/// The size of a vector's select.
#[cycle(size)]
fn select_size(decl: &Decl, select: &Select, decls: &Decls) -> Option<u32>
    ensures value { result ≡ spec.vector_size decls.now decl.now (with_select select.now whole) }
    ensures range { IfSome result (λ m. (1 ≤ m) × (m ≤ 128)) }
{
    match select {
        Select::Bit(_, index) => {
            self_size(index, decls)?;
            Some(1)
        }
        Select::Part(_, left, right) => {
            let l = own(left, decls)?;
            let r = own(right, decls)?;
            if !is_constant(left) || !is_constant(right) {
                return None;
            }
            part_size(decl, l, r)
        }
        Select::Indexed(_, start, width) => {
            self_size(start, decls)?;
            let count = own(width, decls)?;
            if !is_constant(width) {
                return None;
            }
            times(count, 1)
        }
    }
}

/// The size of an expression by itself, and its numbers where size and sign come from the context. A name counts as 0.
#[cycle(size)]
pub(crate) fn evaluate(expr: &Expr, decls: &Decls, numbers: &mut Numbers) -> Option<u32>
    ensures value { result ≡ spec.size decls.now expr.now }
    ensures range { IfSome result (λ m. (1 ≤ m) × (m ≤ 128)) }
    ensures unsigned { IfSome result (λ m. IsRow numbers.new.unsigned.at
        (λ w. spec.value decls.now no_names w false expr.now)) }
    ensures signed { IfSome result (λ m. IsRow numbers.new.signed.at
        (λ w. spec.value decls.now no_names w true expr.now)) }
{
    match &expr.kind {
        ExprKind::Number(number) => {
            numbers.extend(number.width, number.value);
            Some(number.width)
        }
        ExprKind::Name(text, all) => {
            numbers.clear();
            let decl = decls.named(text)?;
            selected_size(decl, all.as_slice(), decls)
        }
        ExprKind::Paren(inner) => evaluate(inner, decls, numbers),
        ExprKind::Unary(operator, operand) => evaluate_unary(*operator, operand, decls, numbers),
        ExprKind::Binary(operator, left, right) => evaluate_binary(
            *operator, left, right, decls, numbers,
        ),
        ExprKind::Conditional(condition, first, second) => {
            let condition = own(condition, decls)?;
            if condition.number == 0 {
                let m = evaluate(first, decls, numbers)?;
                let n = evaluate(second, decls, numbers)?;
                return Some(m.max(n));
            }
            let n = evaluate(second, decls, numbers)?;
            let m = evaluate(first, decls, numbers)?;
            Some(m.max(n))
        }
        ExprKind::Concat(parts) => {
            let part = joined(parts.as_slice(), decls)?;
            numbers.extend(part.width, part.number);
            Some(part.width)
        }
        ExprKind::Repeat(count, parts) => {
            let count_of = own(count, decls)?;
            let part = joined(parts.as_slice(), decls)?;
            if !is_constant(count) {
                return None;
            }
            let all = repeated(count_of, part)?;
            numbers.extend(all.width, all.number);
            Some(all.width)
        }
        ExprKind::Cast(_, operand) => {
            let own = own(operand, decls)?;
            numbers.extend(own.width, own.number);
            Some(own.width)
        }
    }
}

#[cycle(size)]
fn evaluate_unary(
    operator: UnaryOperator,
    operand: &Expr,
    decls: &Decls,
    numbers: &mut Numbers,
) -> Option<u32>
    ensures value { (p : Pos) → result ≡ spec.size decls.now (unary p operator operand.now) }
    ensures range { IfSome result (λ m. (1 ≤ m) × (m ≤ 128)) }
    ensures unsigned { IfSome result (λ m. (p : Pos)
        → IsRow numbers.new.unsigned.at (λ w. spec.value decls.now no_names w false
        (unary p operator operand.now))) }
    ensures signed { IfSome result (λ m. (p : Pos)
        → IsRow numbers.new.signed.at (λ w. spec.value decls.now no_names w true (unary p operator operand.now))) }
{
    match operator {
        UnaryOperator::Plus => evaluate(operand, decls, numbers),
        UnaryOperator::Minus => {
            let m = evaluate(operand, decls, numbers)?;
            numbers.negate();
            Some(m)
        }
        UnaryOperator::BitwiseNot => {
            let m = evaluate(operand, decls, numbers)?;
            numbers.complement();
            Some(m)
        }
        _ => {
            let own = own(operand, decls)?;
            numbers.extend(1, bit(reduced(operator, own.width, own.number)));
            Some(1)
        }
    }
}

#[cycle(size)]
fn evaluate_binary(
    operator: BinaryOperator,
    left: &Expr,
    right: &Expr,
    decls: &Decls,
    numbers: &mut Numbers,
) -> Option<u32>
    ensures value { (p : Pos) → result ≡ spec.size decls.now (binary p operator left.now right.now) }
    ensures range { IfSome result (λ m. (1 ≤ m) × (m ≤ 128)) }
    ensures unsigned { IfSome result (λ m. (p : Pos)
        → IsRow numbers.new.unsigned.at (λ w. spec.value decls.now no_names w false
        (binary p operator left.now right.now))) }
    ensures signed { IfSome result (λ m. (p : Pos)
        → IsRow numbers.new.signed.at (λ w. spec.value decls.now no_names w true
        (binary p operator left.now right.now))) }
{
    match way_of(operator) {
        Way::Larger => evaluate_arithmetic(operator, left, right, decls, numbers),
        Way::Left => {
            let m = evaluate(left, decls, numbers)?;
            let by = own(right, decls)?;
            numbers.shift(operator, by.number);
            Some(m)
        }
        Way::One => {
            let tested = tested(operator, left, right, decls, numbers)?;
            numbers.extend(1, bit(tested));
            Some(1)
        }
    }
}

#[cycle(size)]
fn evaluate_arithmetic(
    operator: BinaryOperator,
    left: &Expr,
    right: &Expr,
    decls: &Decls,
    numbers: &mut Numbers,
) -> Option<u32>
    requires { way operator ≡ Way.Larger }
    ensures value { (p : Pos) → result ≡ spec.size decls.now (binary p operator left.now right.now) }
    ensures range { IfSome result (λ m. (1 ≤ m) × (m ≤ 128)) }
    ensures unsigned { IfSome result (λ m. (p : Pos)
        → IsRow numbers.new.unsigned.at (λ w. spec.value decls.now no_names w false
        (binary p operator left.now right.now))) }
    ensures signed { IfSome result (λ m. (p : Pos)
        → IsRow numbers.new.signed.at (λ w. spec.value decls.now no_names w true
        (binary p operator left.now right.now))) }
{
    let m = evaluate(left, decls, numbers)?;
    let mut other = Numbers::zero();
    let n = evaluate(right, decls, &mut other)?;
    let width = m.max(n);
    if !divides(operator) {
        numbers.combine(operator, &other);
        return Some(width);
    }
    if !is_constant(left) || !is_constant(right) {
        return None;
    }
    numbers.combine(operator, &other);
    Some(width)
}

/// Both operands at the larger of their sizes, signed where both are; of `&&` and `||` each by itself. None exactly
/// where one of them has no size.
#[cycle(size)]
fn tested(
    operator: BinaryOperator,
    left: &Expr,
    right: &Expr,
    decls: &Decls,
    numbers: &mut Numbers,
) -> Option<bool>
    ensures sized { option_map (λ b. 1) result
        ≡ spec.both (spec.size decls.now left.now) (spec.size decls.now right.now) }
    ensures value { let x = spec.operand_of decls.now no_names left.now in
        let y = spec.operand_of decls.now no_names right.now in
        IfSome result (λ b. b ≡ spec.tested operator x y) }
{
    match operator {
        BinaryOperator::LogicalAnd => {
            let left = own(left, decls)?;
            let right = own(right, decls)?;
            Some(left.number != 0 && right.number != 0)
        }
        BinaryOperator::LogicalOr => {
            let left = own(left, decls)?;
            let right = own(right, decls)?;
            Some(left.number != 0 || right.number != 0)
        }
        _ => {
            let m = evaluate(left, decls, numbers)?;
            let mut other = Numbers::zero();
            let n = evaluate(right, decls, &mut other)?;
            let width = m.max(n);
            let signed = sign_of(left, decls) && sign_of(right, decls);
            Some(compared(
                operator,
                width,
                signed,
                numbers.at(width, signed),
                other.at(width, signed),
            ))
        }
    }
}

/// The size, the sign and the number of a constant by itself.
#[cycle(size)]
fn own(expr: &Expr, decls: &Decls) -> Option<Own>
    ensures width { option_map (λ own. own.width) result ≡ spec.size decls.now expr.now }
    ensures some { IfSome result (λ own. 1 ≤ own.width) }
    ensures signed { IfSome result (λ own. own.signed ≡ sign decls.now expr.now) }
    ensures number { IfSome result (λ own. own.number
        ≡ spec.value decls.now no_names own.width (sign decls.now expr.now) expr.now) }
{
    if let ExprKind::Number(number) = &expr.kind {
        return Some(Own {
            width: number.width,
            signed: number.signed,
            number: number.value,
        });
    }
    let mut numbers = Numbers::zero();
    let width = evaluate(expr, decls, &mut numbers)?;
    let signed = sign_of(expr, decls);
    Some(Own {
        width,
        signed,
        number: numbers.at(width, signed),
    })
}

/// The parts of a concatenation of constants, joined to one number. None exactly where they have no size.
#[cycle(size)]
#[tactic(auto, using(crate::proofs::Rest::parts))]
fn joined(all: &[Expr], decls: &Decls) -> Option<Own>
    ensures sizes { option_map (λ own. own.width) result ≡ some_bits (spec.sizes decls.now (exprs all.now)) }
    ensures value { IfSome result (λ own. own.number ≡ spec.concatenated decls.now no_names (exprs all.now)) }
    ensures some { IfSome result (λ own. 1 ≤ own.width) }
{
    let mut width = 0;
    let mut number = 0;
    for part in all {
        let more = own(part, decls)?;
        let longer = plus(width, more.width)?;
        number = appended(number, width, more.width, more.number);
        width = longer;
    }
    let width = some_bits(width)?;
    Some(Own {
        width,
        signed: false,
        number,
    })
}
