//! Parts of items (IEEE 1364-2005, sections 6.1, 9.7, 12.1.2 and 12.4.1).

ghost use Rattle.std.specs.Prelude.{◌≡◌, ◌<◌, ◌≤◌, ℕ, Ok, List, All, ◌∷◌, length, IfOk, []};
ghost use Rattle.fv_text.specs.declared.token.Token.{Token};
ghost use Rattle.vl_tree.specs.Phrase.{Spells, sign, a_name, level, BeginsAt, between_commas, ◌▸◌};
ghost use Rattle.vl_tree.specs.ExprSpelling.{spell};
ghost use Rattle.vl_tree.specs.ExprWellFormed.{IsValue, IsName, IsWellFormed};
ghost use Rattle.vl_tree.specs.ItemSpelling as spec;
ghost use Rattle.vl_tree.specs.WellFormed as formed;
ghost use Rattle.fv_text.specs.declared.symbol.Symbol.TheVariants as s;
ghost use Rattle.vl_parse_grammar.specs.Grammar as grammar;
ghost use Rattle.vl_parse_cursor.specs.Goes.{Goes};
ghost use Rattle.vl_parse_cursor.specs.Next.{kinds_in, behind, behind_name};
ghost use Rattle.vl_parse_grammar.specs.Machine.{then};
ghost use Rattle.vl_parse_decl.specs.LoopHead.{step, condition, last_step, steps};

use crate::list::{Element, read_list};
use crate::lval::read_lval;
use fv_text::{Keyword, Kind, List, Symbol, Text, Token};
use std::alloc::Global;
use vl_parse_cursor::{
    Stop, copied, enter, first_place, next, past_name, past_sign, read_name, read_sign, read_word,
};
use vl_parse_expr::read_expr;
use vl_tree::{Assignment, Connection, Event, EventKind, Expr, Instance, LoopHead};

impl Element for Assignment {
    ghost use Rattle.vl_tree.specs.ItemSpelling.{spell_assignment};
    ghost use Rattle.vl_tree.specs.WellFormed.{IsAssignment};

    ghost phrase = { spell_assignment };

    ghost fits = { IsAssignment };

    ghost rules = { grammar.assignment };

    ghost tail = { grammar.assignments };

    ghost closing = { s.Semicolon };

    #[tactic(auto, using(crate::specs::Tails::tails, crate::proofs::DeclarationRows::basics))]
    fn read(alloc: Global, room: u32, tokens: &[Token]) -> Result<(Assignment, &[Token]), Stop> {
        let (target, rest) = read_lval(alloc, room, tokens)?;
        let (value, rest) = read_step(alloc, room, rest)?;
        Ok((Assignment { target, value }, rest))
    }

    ghost use Rattle.vl_parse_decl.specs.Tails.{assignments_comma_all, assignments_ending};

    ghost comma = { assignments_comma_all };

    ghost ending = { assignments_ending };
}

/// An expression up to the closing bracket, where it is there.
#[tactic(auto, using(crate::proofs::PartRows::of_connected_value, crate::proofs::DeclarationRows::basics))]
fn read_connected(
    alloc: Global,
    room: u32,
    tokens: &[Token],
) -> Result<(Option<Expr>, &[Token]), Stop>
    ensures found { IfOk result (λ x. Spells (spec.spell_optional x.0 ▸ sign Symbol.CloseParen) tokens.now x.1.now) }
    ensures formed { IfOk result (λ x. IsValue x.0) }
    ensures shorter { IfOk result (λ x. length x.1.now < length tokens.now) }
    ensures goes { Goes (λ x. Ok (kinds_in x.1.now)) result
        (grammar.read grammar.connected_value room (kinds_in tokens.now)) }
{
    match past_sign(Symbol::CloseParen, tokens) {
        Some(rest) => Ok((None, rest)),
        None => {
            let (value, rest) = read_expr(alloc, room, tokens)?;
            let rest = read_sign(Symbol::CloseParen, rest)?;
            Ok((Some(value), rest))
        }
    }
}

impl Element for Connection {
    ghost use Rattle.vl_tree.specs.ItemSpelling.{spell_connection};
    ghost use Rattle.vl_tree.specs.WellFormed.{IsConnection};

    ghost phrase = { spell_connection };

    ghost fits = { IsConnection };

    ghost rules = { grammar.connection ∷ [] };

    ghost tail = { grammar.more_connections };

    ghost closing = { s.CloseParen };

    #[tactic(auto, using(crate::proofs::PartRows::of_connection, crate::proofs::PartRows::of_connected, crate::specs::Tails::tails, crate::proofs::DeclarationRows::basics))]
    fn read(alloc: Global, room: u32, tokens: &[Token]) -> Result<(Connection, &[Token]), Stop> {
        let pos = first_place(tokens)?;
        let rest = read_sign(Symbol::Dot, tokens)?;
        let (port, bracket) = read_name(alloc, rest)?;
        let rest = read_sign(Symbol::OpenParen, bracket)?;
        let inside = enter(room, bracket)?;
        let (value, rest) = read_connected(alloc, inside, rest)?;
        Ok((Connection { pos, port, value }, rest))
    }

    ghost use Rattle.vl_parse_decl.specs.Tails.{more_connections_comma_all, more_connections_ending};

    ghost comma = { more_connections_comma_all };

    ghost ending = { more_connections_ending };
}

/// `(.port(value), .port(value))`
#[tactic(auto, using(crate::proofs::PartRows::of_connections, crate::proofs::DeclarationRows::basics))]
fn read_connections(
    alloc: Global,
    room: u32,
    tokens: &[Token],
) -> Result<(List<Connection>, &[Token]), Stop>
    ensures found { IfOk result (λ x. Spells (spec.spell_connections x.0) tokens.now x.1.now) }
    ensures formed { IfOk result (λ x. All formed.IsConnection x.0) }
    ensures shorter { IfOk result (λ x. length x.1.now < length tokens.now) }
    ensures goes { Goes (λ x. Ok (kinds_in x.1.now)) result
        (grammar.read grammar.connections room (kinds_in tokens.now)) }
{
    let rest = read_sign(Symbol::OpenParen, tokens)?;
    let inside = enter(room, tokens)?;
    read_connections_inside(alloc, inside, rest)
}

/// Connections up to the closing bracket.
#[tactic(auto, using(crate::proofs::ConnectionRows::of_connection_list, crate::proofs::PartRows::of_first_connection, crate::proofs::DeclarationRows::basics))]
fn read_connections_inside(
    alloc: Global,
    room: u32,
    tokens: &[Token],
) -> Result<(List<Connection>, &[Token]), Stop>
    ensures found { IfOk result (λ x. Spells
        (between_commas spec.spell_connection x.0 ▸ sign Symbol.CloseParen) tokens.now x.1.now) }
    ensures formed { IfOk result (λ x. All formed.IsConnection x.0) }
    ensures shorter { IfOk result (λ x. length x.1.now < length tokens.now) }
    ensures goes { Goes (λ x. Ok (kinds_in x.1.now)) result
        (grammar.read grammar.first_connection room (kinds_in tokens.now)) }
{
    match past_sign(Symbol::CloseParen, tokens) {
        Some(rest) => Ok((List::new(alloc), rest)),
        None => read_list(alloc, room, Symbol::CloseParen, tokens),
    }
}

#[tactic(auto, using(crate::proofs::PartRows::of_overrides, crate::proofs::DeclarationRows::basics))]
fn read_overrides(
    alloc: Global,
    room: u32,
    tokens: &[Token],
) -> Result<(Option<List<Connection>>, &[Token]), Stop>
    ensures found { IfOk result (λ x. Spells (spec.spell_overrides x.0) tokens.now x.1.now) }
    ensures formed { IfOk result (λ x. formed.AreOverrides x.0) }
    ensures shorter { IfOk result (λ x. length x.1.now ≤ length tokens.now) }
    ensures goes { Goes (λ x. then (behind_name (kinds_in x.1.now))
        (λ r. then (grammar.read grammar.connections room r) (λ q. behind Symbol.Semicolon q))) result
        (grammar.read grammar.overrides room (kinds_in tokens.now)) }
{
    match past_sign(Symbol::Hash, tokens) {
        None => Ok((None, tokens)),
        Some(rest) => {
            let (overrides, rest) = read_connections(alloc, room, rest)?;
            Ok((Some(overrides), rest))
        }
    }
}

/// `definition #(overrides) name (connections);`
#[tactic(auto, using(crate::proofs::DeclarationRows::basics))]
pub fn read_instance(
    alloc: Global,
    room: u32,
    tokens: &[Token],
) -> Result<(Instance, &[Token]), Stop>
    ensures found { IfOk result (λ x. Spells (spec.spell_instance x.0) tokens.now x.1.now) }
    ensures formed { IfOk result (λ x. formed.IsInstance x.0) }
    ensures shorter { IfOk result (λ x. length x.1.now < length tokens.now) }
    ensures goes { Goes (λ x. Ok (kinds_in x.1.now)) result
        (then (behind_name (kinds_in tokens.now)) (λ r. grammar.read grammar.overrides room r)) }
{
    let (definition, rest) = read_name(alloc, tokens)?;
    let (overrides, rest) = read_overrides(alloc, room, rest)?;
    let (name, rest) = read_name(alloc, rest)?;
    let (connections, rest) = read_connections(alloc, room, rest)?;
    let rest = read_sign(Symbol::Semicolon, rest)?;
    Ok((
        Instance {
            definition,
            overrides,
            name,
            connections,
        },
        rest,
    ))
}

/// What stands behind the `@`.
#[tactic(auto, using(crate::proofs::PartRows::of_event, crate::proofs::DeclarationRows::basics))]
pub fn read_event(alloc: Global, room: u32, tokens: &[Token]) -> Result<(Event, &[Token]), Stop>
    ensures found { IfOk result (λ x. Spells (spec.spell_event x.0) tokens.now x.1.now) }
    ensures formed { IfOk result (λ x. formed.IsEvent x.0.kind) }
    ensures shorter { IfOk result (λ x. length x.1.now < length tokens.now) }
    ensures goes { Goes (λ x. Ok (kinds_in x.1.now)) result (grammar.read grammar.event room (kinds_in tokens.now)) }
{
    let pos = first_place(tokens)?;
    let (kind, rest) = read_event_kind(alloc, room, tokens)?;
    Ok((Event { pos, kind }, rest))
}

#[tactic(auto, using(crate::proofs::PartRows::of_event, crate::proofs::DeclarationRows::basics))]
fn read_event_kind(
    alloc: Global,
    room: u32,
    tokens: &[Token],
) -> Result<(EventKind, &[Token]), Stop>
    ensures found { IfOk result (λ x. Spells (spec.spell_event_kind x.0) tokens.now x.1.now) }
    ensures formed { IfOk result (λ x. formed.IsEvent x.0) }
    ensures shorter { IfOk result (λ x. length x.1.now < length tokens.now) }
    ensures goes { Goes (λ x. Ok (kinds_in x.1.now)) result (grammar.read grammar.event room (kinds_in tokens.now)) }
{
    if let Some(rest) = past_sign(Symbol::Star, tokens) {
        return Ok((EventKind::Bare, rest));
    }
    if let Some(rest) = past_sign(Symbol::OpenAttribute, tokens) {
        let _inside = enter(room, tokens)?;
        let rest = read_sign(Symbol::CloseParen, rest)?;
        return Ok((EventKind::OpenJoined, rest));
    }
    let rest = read_sign(Symbol::OpenParen, tokens)?;
    let _inside = enter(room, tokens)?;
    read_event_behind(alloc, rest)
}

/// What stands behind the bracket of an event.
#[tactic(auto, using(crate::proofs::PartRows::of_event_inside, crate::proofs::DeclarationRows::basics))]
fn read_event_behind(alloc: Global, tokens: &[Token]) -> Result<(EventKind, &[Token]), Stop>
    ensures found { IfOk result (λ x. (start : List Token) → Spells (sign Symbol.OpenParen) start tokens.now
        → Spells (spec.spell_event_kind x.0) start x.1.now) }
    ensures formed { IfOk result (λ x. formed.IsEvent x.0) }
    ensures shorter { IfOk result (λ x. length x.1.now < length tokens.now) }
    ensures goes { (room : ℕ) → Goes (λ x. Ok (kinds_in x.1.now)) result
        (grammar.read grammar.event_inside room (kinds_in tokens.now)) }
{
    if let Some(rest) = past_sign(Symbol::CloseAttribute, tokens) {
        return Ok((EventKind::CloseJoined, rest));
    }
    if let Some(rest) = past_sign(Symbol::Star, tokens) {
        let rest = read_sign(Symbol::CloseParen, rest)?;
        return Ok((EventKind::Spaced, rest));
    }
    let rest = read_word(Keyword::Posedge, tokens)?;
    let (clock, rest) = read_name(alloc, rest)?;
    let rest = read_sign(Symbol::CloseParen, rest)?;
    Ok((EventKind::Posedge(clock), rest))
}

/// `(variable = start; condition; variable = next)`
#[tactic(auto, using(crate::proofs::PartRows::of_loop_head, crate::proofs::DeclarationRows::basics))]
pub fn read_head(alloc: Global, room: u32, tokens: &[Token]) -> Result<(LoopHead, &[Token]), Stop>
    ensures found { IfOk result (λ x. Spells (spec.spell_head x.0) tokens.now x.1.now) }
    ensures formed { IfOk result (λ x. formed.IsHead x.0) }
    ensures shorter { IfOk result (λ x. length x.1.now < length tokens.now) }
    ensures goes { Goes (λ x. Ok (kinds_in x.1.now)) result
        (grammar.read grammar.loop_head room (kinds_in tokens.now)) }
{
    let rest = read_sign(Symbol::OpenParen, tokens)?;
    let inside = enter(room, tokens)?;
    read_variable(alloc, inside, rest)
}

/// What stands behind the bracket of a loop's head.
#[tactic(auto, using(crate::proofs::PartRows::of_loop_variable, crate::proofs::DeclarationRows::basics))]
fn read_variable(alloc: Global, room: u32, tokens: &[Token]) -> Result<(LoopHead, &[Token]), Stop>
    ensures found { IfOk result (λ x. (start : List Token) → Spells (sign Symbol.OpenParen) start tokens.now
        → Spells (spec.spell_head x.0) start x.1.now) }
    ensures formed { IfOk result (λ x. formed.IsHead x.0) }
    ensures shorter { IfOk result (λ x. length x.1.now < length tokens.now) }
    ensures goes { Goes (λ x. Ok (kinds_in x.1.now)) result
        (grammar.read grammar.loop_variable room (kinds_in tokens.now)) }
{
    match past_name(alloc, tokens)? {
        None => Err(Stop::Wrong(tokens.len())),
        Some((variable, rest)) => read_steps(alloc, room, variable, rest),
    }
}

/// What stands behind the variable of a loop's head.
#[tactic(auto, using(crate::proofs::PartSpelled::part_spelled, crate::proofs::DeclarationRows::basics))]
fn read_steps(
    alloc: Global,
    room: u32,
    variable: Text,
    tokens: &[Token],
) -> Result<(LoopHead, &[Token]), Stop>
    requires name { IsName variable }
    ensures found { IfOk result (λ x. (start name : List Token) → Spells (sign Symbol.OpenParen) start name
        → Spells (a_name variable) name tokens.now → Spells (spec.spell_head x.0) start x.1.now) }
    ensures formed { IfOk result (λ x. formed.IsHead x.0) }
    ensures shorter { IfOk result (λ x. length x.1.now < length tokens.now) }
    ensures goes { Goes (λ x. Ok (kinds_in x.1.now)) result (steps variable room (kinds_in tokens.now)) }
{
    let (start, rest) = read_step(alloc, room, tokens)?;
    let (condition, rest) = read_condition(alloc, room, rest)?;
    let (next_variable, next, rest) = read_last_step(alloc, room, &variable, rest)?;
    Ok((
        LoopHead {
            variable,
            start,
            condition,
            next_variable,
            next,
        },
        rest,
    ))
}

/// `= expr`
#[tactic(auto, using(crate::proofs::DeclarationRows::basics))]
pub(crate) fn read_step(
    alloc: Global,
    room: u32,
    tokens: &[Token],
) -> Result<(Expr, &[Token]), Stop>
    ensures found { IfOk result (λ x. Spells (sign Symbol.Equal ▸ level (spell x.0)) tokens.now x.1.now) }
    ensures formed { IfOk result (λ x. IsWellFormed x.0) }
    ensures shorter { IfOk result (λ x. length x.1.now < length tokens.now) }
    ensures goes { Goes (λ x. Ok (kinds_in x.1.now)) result (step room (kinds_in tokens.now)) }
{
    let rest = read_sign(Symbol::Equal, tokens)?;
    read_expr(alloc, room, rest)
}

/// `; expr ;`
#[tactic(auto, using(crate::proofs::DeclarationRows::basics))]
fn read_condition(alloc: Global, room: u32, tokens: &[Token]) -> Result<(Expr, &[Token]), Stop>
    ensures found { IfOk result (λ x. Spells
        (sign Symbol.Semicolon ▸ level (spell x.0) ▸ sign Symbol.Semicolon) tokens.now x.1.now) }
    ensures formed { IfOk result (λ x. IsWellFormed x.0) }
    ensures shorter { IfOk result (λ x. length x.1.now < length tokens.now) }
    ensures goes { Goes (λ x. Ok (kinds_in x.1.now)) result (condition room (kinds_in tokens.now)) }
{
    let rest = read_sign(Symbol::Semicolon, tokens)?;
    let (condition, rest) = read_expr(alloc, room, rest)?;
    let rest = read_sign(Symbol::Semicolon, rest)?;
    Ok((condition, rest))
}

/// `variable = expr)`
#[tactic(auto, using(crate::proofs::DeclarationRows::basics))]
fn read_last_step<'a>(
    alloc: Global,
    room: u32,
    variable: &Text,
    tokens: &'a [Token],
) -> Result<(Text, Expr, &'a [Token]), Stop>
    ensures found { IfOk result (λ x. Spells
        (spec.spell_step x.0 x.1 ▸ sign Symbol.CloseParen) tokens.entry.now x.2.now) }
    ensures same { IfOk result (λ x. x.0 ≡ variable.now) }
    ensures formed { IfOk result (λ x. IsWellFormed x.1) }
    ensures shorter { IfOk result (λ x. length x.2.now < length tokens.entry.now) }
    ensures goes { Goes (λ x. Ok (kinds_in x.2.now)) result (last_step variable.now room (kinds_in tokens.entry.now)) }
{
    let (name, rest) = read_this_name(alloc, variable, tokens)?;
    let (next, rest) = read_step(alloc, room, rest)?;
    let rest = read_sign(Symbol::CloseParen, rest)?;
    Ok((name, next, rest))
}

/// A name that is the given one.
#[tactic(auto, using(crate::proofs::PartRows::of_this_name, crate::proofs::DeclarationRows::basics))]
fn read_this_name<'a>(
    alloc: Global,
    wanted: &Text,
    tokens: &'a [Token],
) -> Result<(Text, &'a [Token]), Stop>
    ensures found { IfOk result (λ x. Spells (a_name wanted.now) tokens.entry.now x.1.now) }
    ensures same { IfOk result (λ x. x.0 ≡ wanted.now) }
    ensures shorter { IfOk result (λ x. length x.1.now < length tokens.entry.now) }
    ensures goes { (room : ℕ) → Goes (λ x. Ok (kinds_in x.1.now)) result
        (grammar.read (grammar.this_name wanted.now) room (kinds_in tokens.entry.now)) }
{
    let Some((first, rest)) = next(tokens) else {
        return Err(Stop::Wrong(0));
    };
    match &first.kind {
        Kind::Name(text) => {
            if text.is(wanted.bytes()) {
                Ok((copied(alloc, text)?, rest))
            } else {
                Err(Stop::Wrong(tokens.len()))
            }
        }
        _ => Err(Stop::Wrong(tokens.len())),
    }
}
