//! Expressions (IEEE 1364-2005, sections 5.1 and A.8). `room` is the number of constructs that may still open;
//! operators stay open up to the end of their brackets, so what reads within them answers the level that is reached.

ghost use Rattle.std.specs.Prelude.{
  ◌≡◌,
  ◌+◌,
  ◌-◌,
  ◌<◌,
  ◌≤◌,
  ◌∷◌,
  [],
  Ok,
  List,
  length,
  IfOk,
};
ghost use Rattle.fv_text.specs.declared.kind.Kind.TheVariants as k;
ghost use Rattle.fv_text.specs.declared.symbol.Symbol.TheVariants as s;
ghost use Rattle.fv_text.specs.declared.token.Token.{Token};
ghost use Rattle.vl_tree.specs.Phrase.{Spells, sign, BeginsAt, ◌▸◌, parens};
ghost use Rattle.vl_tree.specs.Expr.{exprs};
ghost use Rattle.vl_tree.specs.ExprView.{selects};
ghost use Rattle.vl_tree.specs.ExprSpelling as spec;
ghost use Rattle.vl_tree.specs.ExprWellFormed as formed;
ghost use Rattle.vl_parse_grammar.specs.Grammar as grammar;
ghost use Rattle.vl_parse_cursor.specs.Goes.{Goes};
ghost use Rattle.vl_parse_expr.specs.Levels.{operand_at, more_at, Rests};
ghost use Rattle.vl_parse_cursor.specs.Next.{kinds_in};

use crate::level::{Level, Stand};
use crate::make;
use fv_text::{List, Pos, Symbol, Token};
use std::alloc::Global;
use vl_parse_cursor::{
    Joint, Lead, Stop, add, binds, enter, first_place, joint_of, lead_of, next, past_sign,
    read_name, read_sign,
};
use vl_tree::{Expr, Select};

/// An expression.
#[cycle(expr)]
#[tactic(auto, using(crate::proofs::ExprRows::of_read_expr))]
pub fn read_expr(alloc: Global, room: u32, tokens: &[Token]) -> Result<(Expr, &[Token]), Stop>
    ensures found { IfOk result (λ x. Spells (spec.spell x.0) tokens.now x.1.now) }
    ensures formed { IfOk result (λ x. formed.IsWellFormed x.0) }
    ensures rests { IfOk result (λ x. Rests 0 (kinds_in x.1.now)) }
    ensures shorter { IfOk result (λ x. length x.1.now < length tokens.now) }
    ensures goes { Goes (λ x. Ok (kinds_in x.1.now)) result (grammar.read grammar.expr room (kinds_in tokens.now)) }
{
    let (expr, _, rest) = chain(alloc, Level::new(Stand::Plain, room), 0, 0, tokens)?;
    Ok((expr, rest))
}

/// Operands, and between them operators that bind as strongly as `least` at least. `opened` operators are open before
/// them; answered is how many are open behind.
#[cycle(expr)]
#[tactic(auto, using(crate::proofs::ExprRows::of_chain))]
fn chain(
    alloc: Global,
    level: Level,
    opened: u32,
    least: u32,
    tokens: &[Token],
) -> Result<(Expr, u32, &[Token]), Stop>
    requires fits { opened ≤ level.room }
    requires colons { level.colons ≤ opened }
    requires least { least ≤ 11 }
    ensures opened { IfOk result (λ x. opened ≤ x.1) }
    ensures room { IfOk result (λ x. x.1 ≤ level.room) }
    ensures found { IfOk result (λ x. Spells (spec.spell x.0) tokens.now x.2.now) }
    ensures formed { IfOk result (λ x. formed.IsWellFormed x.0) }
    ensures tight { IfOk result (λ x. least ≤ formed.level x.0) }
    ensures rests { IfOk result (λ x. Rests least (kinds_in x.2.now)) }
    ensures shorter { IfOk result (λ x. length x.2.now < length tokens.now) }
    ensures goes { Goes (λ x. more_at level x.1 (kinds_in x.2.now)) result
        (operand_at level opened (kinds_in tokens.now)) }
{
    let (left, opened, rest) = operand(alloc, level, opened, tokens)?;
    climb(alloc, level, opened, least, left, rest)
}

/// What may stand behind a first operand.
#[cycle(expr)]
fn climb(
    alloc: Global,
    level: Level,
    opened: u32,
    least: u32,
    left: Expr,
    tokens: &[Token],
) -> Result<(Expr, u32, &[Token]), Stop>
    requires fits { opened ≤ level.room }
    requires colons { level.colons ≤ opened }
    requires formed { formed.IsWellFormed left }
    requires tight { least ≤ formed.level left }
    requires no_conditional { 0 < formed.level left }
    requires behind { Rests (formed.level left + 1) (kinds_in tokens.now) }
    ensures opened { IfOk result (λ x. opened ≤ x.1) }
    ensures room { IfOk result (λ x. x.1 ≤ level.room) }
    ensures found { IfOk result (λ x. (start : List Token) → Spells (spec.spell left) start tokens.now
        → Spells (spec.spell x.0) start x.2.now) }
    ensures formed { IfOk result (λ x. formed.IsWellFormed x.0) }
    ensures tight { IfOk result (λ x. least ≤ formed.level x.0) }
    ensures rests { IfOk result (λ x. Rests least (kinds_in x.2.now)) }
    ensures shorter { IfOk result (λ x. length x.2.now ≤ length tokens.now) }
    ensures goes { Goes (λ x. more_at level x.1 (kinds_in x.2.now)) result
        (more_at level opened (kinds_in tokens.now)) }
{
    let Some((first, rest)) = next(tokens) else {
        return Ok((left, opened, tokens));
    };
    match joint_of(&first.kind) {
        Joint::Binary(operator) => {
            let strength = binds(operator);
            if strength < least {
                return Ok((left, opened, tokens));
            }
            let opened = level.count_operator(opened, tokens)?;
            let (right, opened, rest) = chain(alloc, level, opened, strength + 1, rest)?;
            let both = make::binary(alloc, operator, left, right)?;
            climb(alloc, level, opened, least, both, rest)
        }
        Joint::Question => {
            if least > 0 {
                return Ok((left, opened, tokens));
            }
            let opened = level.count_operator(opened, tokens)?;
            let (one, opened, rest) = chain(alloc, level.with_colon(), opened, 0, rest)?;
            let rest = read_sign(Symbol::Colon, rest)?;
            let (other, opened, rest) = chain(alloc, level, opened, 0, rest)?;
            Ok((make::conditional(alloc, left, one, other)?, opened, rest))
        }
        Joint::Nothing => Ok((left, opened, tokens)),
    }
}

#[cycle(expr)]
#[tactic(auto, using(crate::proofs::ExprRows::of_operand))]
fn operand(
    alloc: Global,
    level: Level,
    opened: u32,
    tokens: &[Token],
) -> Result<(Expr, u32, &[Token]), Stop>
    requires fits { opened ≤ level.room }
    requires colons { level.colons ≤ opened }
    ensures opened { IfOk result (λ x. opened ≤ x.1) }
    ensures room { IfOk result (λ x. x.1 ≤ level.room) }
    ensures found { IfOk result (λ x. Spells (spec.spell x.0) tokens.now x.2.now) }
    ensures formed { IfOk result (λ x. formed.IsWellFormed x.0) }
    ensures tight { IfOk result (λ x. 11 ≤ formed.level x.0) }
    ensures shorter { IfOk result (λ x. length x.2.now < length tokens.now) }
    ensures goes { Goes (λ x. more_at level x.1 (kinds_in x.2.now)) result
        (operand_at level opened (kinds_in tokens.now)) }
{
    let Some((first, rest)) = next(tokens) else {
        return Err(Stop::Wrong(0));
    };
    let pos = first.pos;
    match lead_of(&first.kind) {
        Lead::Number(number) => Ok((make::number(pos, number), opened, rest)),
        Lead::Name => {
            let (text, rest) = read_name(alloc, tokens)?;
            let (selects, rest) = read_selects(alloc, level.room - opened, rest)?;
            Ok((make::name(pos, text, selects), opened, rest))
        }
        Lead::Paren => {
            let (inner, rest) = read_parens(alloc, level.room - opened, tokens)?;
            Ok((make::paren(alloc, pos, inner)?, opened, rest))
        }
        Lead::Brace => {
            let inside = enter(level.room - opened, tokens)?;
            let (expr, rest) = braces(alloc, pos, inside, rest)?;
            Ok((expr, opened, rest))
        }
        Lead::Unary(operator) => {
            let opened = level.count_operator(opened, tokens)?;
            let (inner, opened, rest) = operand(alloc, level, opened, rest)?;
            Ok((make::unary(alloc, pos, operator, inner)?, opened, rest))
        }
        Lead::Cast(cast) => {
            let (inner, rest) = read_parens(alloc, level.room - opened, rest)?;
            Ok((make::cast(alloc, pos, cast, inner)?, opened, rest))
        }
        Lead::Nothing => Err(Stop::Wrong(tokens.len())),
    }
}

/// `( expr )`
#[cycle(expr)]
#[tactic(auto, using(crate::proofs::ExprRows::of_read_parens))]
pub fn read_parens(alloc: Global, room: u32, tokens: &[Token]) -> Result<(Expr, &[Token]), Stop>
    ensures found { IfOk result (λ x. Spells (parens (spec.spell x.0)) tokens.now x.1.now) }
    ensures formed { IfOk result (λ x. formed.IsWellFormed x.0) }
    ensures shorter { IfOk result (λ x. length x.1.now < length tokens.now) }
    ensures goes { Goes (λ x. Ok (kinds_in x.1.now)) result
        (grammar.read grammar.in_parens room (kinds_in tokens.now)) }
{
    let rest = read_sign(Symbol::OpenParen, tokens)?;
    let inside = enter(room, tokens)?;
    let (inner, rest) = read_expr(alloc, inside, rest)?;
    let rest = read_sign(Symbol::CloseParen, rest)?;
    Ok((inner, rest))
}

/// What is behind a `{`. The first expression is the count of a replication where another brace follows; its operators
/// stay open then.
#[cycle(expr)]
#[tactic(auto, using(crate::proofs::ExprRows::of_braces))]
fn braces(alloc: Global, pos: Pos, room: u32, tokens: &[Token]) -> Result<(Expr, &[Token]), Stop>
    ensures found { IfOk result (λ x. (start : List Token) → BeginsAt pos start
        → Spells (sign Symbol.OpenBrace) start tokens.now → Spells (spec.spell x.0) start x.1.now) }
    ensures formed { IfOk result (λ x. formed.IsWellFormed x.0) }
    ensures tight { IfOk result (λ x. formed.level x.0 ≡ 12) }
    ensures shorter { IfOk result (λ x. length x.1.now < length tokens.now) }
    ensures goes { Goes (λ x. Ok (kinds_in x.1.now)) result
        (grammar.read (grammar.operand grammar.first_in_braces 0 0) room (kinds_in tokens.now)) }
{
    let level = Level::new(Stand::FirstInBraces, room);
    let (first, opened, rest) = chain(alloc, level, 0, 0, tokens)?;
    match past_sign(Symbol::OpenBrace, rest) {
        Some(behind) => {
            let inside = enter(room - opened, rest)?;
            let (part, rest) = read_expr(alloc, inside, behind)?;
            let (parts, rest) = parts_behind(alloc, inside, part, rest)?;
            let rest = read_sign(Symbol::CloseBrace, rest)?;
            Ok((make::repeat(alloc, pos, first, parts)?, rest))
        }
        None => {
            let (parts, rest) = parts_behind(alloc, room, first, rest)?;
            Ok((make::concat(pos, parts), rest))
        }
    }
}

/// The parts behind a first one, up to the closing brace.
#[cycle(expr)]
#[tactic(auto, using(crate::proofs::ExprRows::of_parts_behind, crate::proofs::ExprSpelled::expr_spelled))]
fn parts_behind(
    alloc: Global,
    room: u32,
    first: Expr,
    tokens: &[Token],
) -> Result<(List<Expr>, &[Token]), Stop>
    requires formed { formed.IsWellFormed first }
    ensures found { IfOk result (λ x. (start : List Token) → Spells (spec.spell first) start tokens.now
        → Spells (spec.spell_parts (exprs x.0) ▸ sign Symbol.CloseBrace) start x.1.now) }
    ensures some { IfOk result (λ x. formed.IsSome (exprs x.0)) }
    ensures formed { IfOk result (λ x. formed.AreWellFormed (exprs x.0)) }
    ensures shorter { IfOk result (λ x. length x.1.now < length tokens.now) }
    ensures goes { Goes (λ x. Ok (kinds_in x.1.now)) result (grammar.read grammar.parts room (kinds_in tokens.now)) }
{
    let mut parts = List::new(alloc);
    add(&mut parts, first)?;
    let mut rest = tokens;
    while let Some(behind) = past_sign(Symbol::Comma, rest) {
        let (part, behind) = read_expr(alloc, room, behind)?;
        add(&mut parts, part)?;
        rest = behind;
    }
    let rest = read_sign(Symbol::CloseBrace, rest)?;
    Ok((parts, rest))
}

/// The selects behind a name.
#[cycle(expr)]
#[tactic(auto, using(crate::proofs::ExprRows::of_read_selects, crate::proofs::ExprSpelled::expr_spelled))]
pub fn read_selects(
    alloc: Global,
    room: u32,
    tokens: &[Token],
) -> Result<(List<Select>, &[Token]), Stop>
    ensures found { IfOk result (λ x. Spells (spec.spell_selects (selects x.0)) tokens.now x.1.now) }
    ensures formed { IfOk result (λ x. formed.AreSelects (selects x.0)) }
    ensures shorter { IfOk result (λ x. length x.1.now ≤ length tokens.now) }
    ensures goes { Goes (λ x. Ok (kinds_in x.1.now)) result (grammar.read grammar.selects room (kinds_in tokens.now)) }
{
    let mut all = List::new(alloc);
    let mut rest = tokens;
    while let Some(behind) = past_sign(Symbol::OpenBracket, rest) {
        let (select, behind) = read_select(alloc, room, rest, behind)?;
        add(&mut all, select)?;
        rest = behind;
    }
    Ok((all, rest))
}

/// A select, whose bracket is the first token.
#[cycle(expr)]
#[tactic(auto, using(crate::proofs::ExprRows::of_read_select))]
fn read_select<'a>(
    alloc: Global,
    room: u32,
    tokens: &'a [Token],
    behind: &'a [Token],
) -> Result<(Select, &'a [Token]), Stop>
    requires bracket { Spells (sign Symbol.OpenBracket) tokens.now behind.now }
    requires kinds { kinds_in tokens.now ≡ k.Symbol s.OpenBracket ∷ kinds_in behind.now }
    requires inside { length behind.now < length tokens.now }
    ensures found { IfOk result (λ x. Spells (spec.spell_selects (selects (x.0 ∷ []))) tokens.entry.now x.1.now) }
    ensures formed { IfOk result (λ x. formed.AreSelects (selects (x.0 ∷ []))) }
    ensures shorter { IfOk result (λ x. length x.1.now < length tokens.entry.now) }
    ensures goes { Goes (λ x. grammar.read grammar.selects room (kinds_in x.1.now)) result
        (grammar.read grammar.selects room (kinds_in tokens.entry.now)) }
{
    let pos = first_place(tokens)?;
    let inside = enter(room, tokens)?;
    let (first, rest) = read_expr(alloc, inside, behind)?;
    read_select_end(alloc, pos, inside, first, rest)
}

/// What is behind the first expression of a select.
#[cycle(expr)]
#[tactic(auto, using(crate::proofs::ExprRows::of_read_select_end, crate::proofs::ExprSpelled::expr_spelled))]
fn read_select_end(
    alloc: Global,
    pos: Pos,
    room: u32,
    first: Expr,
    tokens: &[Token],
) -> Result<(Select, &[Token]), Stop>
    requires formed { formed.IsWellFormed first }
    ensures found { IfOk result (λ x. (start inside : List Token) → BeginsAt pos start
        → Spells (sign Symbol.OpenBracket) start inside → Spells (spec.spell first) inside tokens.now
        → Spells (spec.spell_selects (selects (x.0 ∷ []))) start x.1.now) }
    ensures formed { IfOk result (λ x. formed.AreSelects (selects (x.0 ∷ []))) }
    ensures shorter { IfOk result (λ x. length x.1.now < length tokens.now) }
    ensures goes { Goes (λ x. Ok (kinds_in x.1.now)) result
        (grammar.read grammar.select_end room (kinds_in tokens.now)) }
{
    if let Some(rest) = past_sign(Symbol::Colon, tokens) {
        let (right, rest) = read_expr(alloc, room, rest)?;
        let rest = read_sign(Symbol::CloseBracket, rest)?;
        return Ok((make::part(alloc, pos, first, right)?, rest));
    }
    if let Some(rest) = past_sign(Symbol::PlusColon, tokens) {
        let (width, rest) = read_expr(alloc, room, rest)?;
        let rest = read_sign(Symbol::CloseBracket, rest)?;
        return Ok((make::indexed(alloc, pos, first, width)?, rest));
    }
    let rest = read_sign(Symbol::CloseBracket, tokens)?;
    Ok((make::bit(alloc, pos, first)?, rest))
}
