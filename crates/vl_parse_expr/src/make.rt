//! Nodes of expressions, each at the place of its first token.

ghost use Rattle.std.specs.Prelude.{◌≡◌, ◌∷◌, [], IfOk, IfErr};
ghost use Rattle.vl_tree.specs.Expr as tree;
ghost use Rattle.vl_tree.specs.ExprView.{selects};
ghost use Rattle.vl_parse_expr.specs.Levels.{place};
ghost use Rattle.vl_parse_cursor.specs.Goes.{IsMemory};

use fv_text::{List, Number, Pos, Text};
use std::alloc::Global;
use vl_parse_cursor::Stop;
use vl_tree::{BinaryOperator, Cast, Expr, ExprKind, Select, UnaryOperator};

fn boxed<T: Drop>(alloc: Global, value: T) -> Result<Box<T>, Stop>
    ensures same { IfOk result (λ box. box.value ≡ value) }
    ensures memory { IfErr result (λ e. IsMemory e) }
{
    match Box::new(alloc, value) {
        Ok(value) => Ok(value),
        Err(_) => Err(Stop::Memory),
    }
}

pub fn number(pos: Pos, number: Number) -> Expr
    ensures { result ≡ tree.number pos number }
{
    Expr {
        pos,
        kind: ExprKind::Number(number),
    }
}

pub(crate) fn name(pos: Pos, text: Text, all: List<Select>) -> Expr
    ensures { result ≡ tree.name pos text (selects all) }
{
    Expr {
        pos,
        kind: ExprKind::Name(text, all),
    }
}

pub(crate) fn paren(alloc: Global, pos: Pos, inner: Expr) -> Result<Expr, Stop>
    ensures made { IfOk result (λ e. e ≡ tree.paren pos inner) }
    ensures memory { IfErr result (λ e. IsMemory e) }
{
    Ok(Expr {
        pos,
        kind: ExprKind::Paren(boxed(alloc, inner)?),
    })
}

pub(crate) fn unary(
    alloc: Global,
    pos: Pos,
    operator: UnaryOperator,
    operand: Expr,
) -> Result<Expr, Stop>
    ensures made { IfOk result (λ e. e ≡ tree.unary pos operator operand) }
    ensures memory { IfErr result (λ e. IsMemory e) }
{
    Ok(Expr {
        pos,
        kind: ExprKind::Unary(operator, boxed(alloc, operand)?),
    })
}

pub(crate) fn binary(
    alloc: Global,
    operator: BinaryOperator,
    left: Expr,
    right: Expr,
) -> Result<Expr, Stop>
    ensures made { IfOk result (λ e. e ≡ tree.binary (place left) operator left right) }
    ensures memory { IfErr result (λ e. IsMemory e) }
{
    let pos = left.pos;
    let left = boxed(alloc, left)?;
    let right = boxed(alloc, right)?;
    Ok(Expr {
        pos,
        kind: ExprKind::Binary(operator, left, right),
    })
}

pub(crate) fn conditional(
    alloc: Global,
    condition: Expr,
    first: Expr,
    second: Expr,
) -> Result<Expr, Stop>
    ensures made { IfOk result (λ e. e ≡ tree.conditional (place condition) condition first second) }
    ensures memory { IfErr result (λ e. IsMemory e) }
{
    let pos = condition.pos;
    let condition = boxed(alloc, condition)?;
    let first = boxed(alloc, first)?;
    let second = boxed(alloc, second)?;
    Ok(Expr {
        pos,
        kind: ExprKind::Conditional(condition, first, second),
    })
}

pub(crate) fn concat(pos: Pos, parts: List<Expr>) -> Expr
    ensures { result ≡ tree.concat pos (tree.exprs parts) }
{
    Expr {
        pos,
        kind: ExprKind::Concat(parts),
    }
}

pub(crate) fn repeat(alloc: Global, pos: Pos, count: Expr, parts: List<Expr>) -> Result<Expr, Stop>
    ensures made { IfOk result (λ e. e ≡ tree.repeat pos count (tree.exprs parts)) }
    ensures memory { IfErr result (λ e. IsMemory e) }
{
    Ok(Expr {
        pos,
        kind: ExprKind::Repeat(boxed(alloc, count)?, parts),
    })
}

pub(crate) fn cast(alloc: Global, pos: Pos, cast: Cast, inner: Expr) -> Result<Expr, Stop>
    ensures made { IfOk result (λ e. e ≡ tree.cast pos cast inner) }
    ensures memory { IfErr result (λ e. IsMemory e) }
{
    Ok(Expr {
        pos,
        kind: ExprKind::Cast(cast, boxed(alloc, inner)?),
    })
}

pub(crate) fn bit(alloc: Global, pos: Pos, index: Expr) -> Result<Select, Stop>
    ensures made { IfOk result (λ s. selects (s ∷ []) ≡ tree.bit pos index tree.whole) }
    ensures memory { IfErr result (λ e. IsMemory e) }
{
    Ok(Select::Bit(pos, boxed(alloc, index)?))
}

pub(crate) fn part(alloc: Global, pos: Pos, left: Expr, right: Expr) -> Result<Select, Stop>
    ensures made { IfOk result (λ s. selects (s ∷ []) ≡ tree.part pos left right tree.whole) }
    ensures memory { IfErr result (λ e. IsMemory e) }
{
    let left = boxed(alloc, left)?;
    let right = boxed(alloc, right)?;
    Ok(Select::Part(pos, left, right))
}

pub(crate) fn indexed(alloc: Global, pos: Pos, start: Expr, width: Expr) -> Result<Select, Stop>
    ensures made { IfOk result (λ s. selects (s ∷ []) ≡ tree.indexed pos start width tree.whole) }
    ensures memory { IfErr result (λ e. IsMemory e) }
{
    let start = boxed(alloc, start)?;
    let width = boxed(alloc, width)?;
    Ok(Select::Indexed(pos, start, width))
}
