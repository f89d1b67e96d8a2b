use crate::operator::{BinaryOperator, Cast, UnaryOperator};
use fv_text::{List, Number, Pos, Text};
use std::marker::Model;

/// An expression with its place, that of its first token (IEEE 1364-2005, section A.8.3). Contracts see it as a plain
/// tree.
#[cycle(expr)]
#[derive(Drop)]
pub struct Expr {
    pub pos: Pos,
    pub kind: ExprKind,
}

/// One variant for each alternative of the grammar.
#[cycle(expr)]
#[derive(Drop)]
pub enum ExprKind {
    Number(Number),
    /// A name, and the selects behind it.
    Name(Text, List<Select>),
    /// `( expr )`
    Paren(Box<Expr>),
    Unary(UnaryOperator, Box<Expr>),
    Binary(BinaryOperator, Box<Expr>, Box<Expr>),
    /// `condition ? first : second`
    Conditional(Box<Expr>, Box<Expr>, Box<Expr>),
    /// `{ first, second }`
    Concat(List<Expr>),
    /// `{ count { first, second } }`
    Repeat(Box<Expr>, List<Expr>),
    /// `$signed ( expr )`
    Cast(Cast, Box<Expr>),
}

/// A select behind a name, with the place of its bracket (IEEE 1364-2005, sections 5.2.1 and 5.2.2).
#[cycle(expr)]
#[derive(Drop)]
pub enum Select {
    /// `[index]`
    Bit(Pos, Box<Expr>),
    /// `[left : right]`
    Part(Pos, Box<Expr>, Box<Expr>),
    /// `[start +: width]`
    Indexed(Pos, Box<Expr>, Box<Expr>),
}

impl Model for Expr {
    ghost use Rattle.vl_tree.specs.Expr.{Expr, depth};
    ghost use Rattle.vl_tree.specs.ExprCode.{expr_code};

    ghost Value = { Expr };

    ghost coded = { expr_code };

    ghost use Rattle.vl_tree.specs.ExprView.{shown};

    ghost view = { λ e. shown e.pos e.kind };

    ghost size = { depth };

    ghost use Rattle.std.proofs.Common.{arith};
    ghost use Rattle.vl_tree.specs.ExprFalls.{falls};

    ghost size_decreases = { λ e h. Prim.omega (arith, falls e.pos e.kind) };
}
