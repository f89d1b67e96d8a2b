//! Ranges, declared names and parameters (IEEE 1364-2005, sections A.2 and 3.11).

ghost use Rattle.std.specs.Prelude.{◌≡◌, ◌<◌, ◌≤◌, Ok, length, IfOk, List, ℕ, [], ◌∷◌};
ghost use Rattle.vl_tree.specs.Phrase.{Spells, a_name, level, sign, ◌▸◌};
ghost use Rattle.vl_tree.specs.ExprSpelling.{spell};
ghost use Rattle.vl_tree.specs.ExprWellFormed.{IsName, IsWellFormed};
ghost use Rattle.vl_tree.specs.DeclarationSpelling as spec;
ghost use Rattle.vl_tree.specs.DeclarationWellFormed as formed;
ghost use Rattle.fv_text.specs.declared.symbol.Symbol.TheVariants as s;
ghost use Rattle.vl_parse_grammar.specs.Machine.{then};
ghost use Rattle.vl_parse_grammar.specs.Grammar as grammar;
ghost use Rattle.vl_parse_cursor.specs.Goes.{Goes};
ghost use Rattle.vl_parse_cursor.specs.Next.{kinds_in, IsOther};
ghost use Rattle.vl_parse_decl.specs.LoopHead.{step};

use crate::attribute::read_value;
use crate::list::Element;
use crate::part::read_step;
use fv_text::{Keyword, Symbol, Text, Token};
use std::alloc::Global;
use vl_parse_cursor::{Stop, enter, first_place, past_sign, past_word, read_name, read_sign};
use vl_parse_expr::read_expr;
use vl_tree::{DeclaredName, Expr, Parameter, Range, Shape};

/// `[left : right]`, where it is there.
#[tactic(auto, using(crate::proofs::DeclarationRows::of_range, crate::proofs::DeclarationRows::basics))]
fn read_range(alloc: Global, room: u32, tokens: &[Token]) -> Result<(Option<Range>, &[Token]), Stop>
    ensures found { IfOk result (λ x. Spells (spec.spell_optional_range x.0) tokens.now x.1.now) }
    ensures formed { IfOk result (λ x. formed.IsOptionalRange x.0) }
    ensures shorter { IfOk result (λ x. length x.1.now ≤ length tokens.now) }
    ensures goes { Goes (λ x. Ok (kinds_in x.1.now)) result (grammar.read grammar.range room (kinds_in tokens.now)) }
{
    match past_sign(Symbol::OpenBracket, tokens) {
        None => Ok((None, tokens)),
        Some(rest) => {
            let pos = first_place(tokens)?;
            let inside = enter(room, tokens)?;
            let (left, rest) = read_expr(alloc, inside, rest)?;
            let rest = read_sign(Symbol::Colon, rest)?;
            let (right, rest) = read_expr(alloc, inside, rest)?;
            let rest = read_sign(Symbol::CloseBracket, rest)?;
            Ok((Some(Range { pos, left, right }), rest))
        }
    }
}

/// `signed` and a range, each where it is there.
#[tactic(auto, using(crate::proofs::DeclarationRows::of_shape, crate::proofs::DeclarationRows::basics))]
pub fn read_shape(alloc: Global, room: u32, tokens: &[Token]) -> Result<(Shape, &[Token]), Stop>
    ensures found { IfOk result (λ x. Spells (spec.spell_shape x.0) tokens.now x.1.now) }
    ensures formed { IfOk result (λ x. formed.IsShape x.0) }
    ensures shorter { IfOk result (λ x. length x.1.now ≤ length tokens.now) }
    ensures goes { Goes (λ x. Ok (kinds_in x.1.now)) result (grammar.read grammar.shape room (kinds_in tokens.now)) }
{
    let (signed, rest) = read_signed(tokens);
    let (range, rest) = read_range(alloc, room, rest)?;
    Ok((Shape { signed, range }, rest))
}

#[tactic(auto, using(crate::proofs::DeclarationRows::of_shape, crate::proofs::DeclarationRows::basics))]
fn read_signed(tokens: &[Token]) -> (bool, &[Token])
    ensures found { Spells (spec.spell_if result.0 Keyword.Signed) tokens.now result.1.now }
    ensures shorter { length result.1.now ≤ length tokens.now }
    ensures goes { (room : ℕ) → grammar.read grammar.shape room (kinds_in tokens.now)
        ≡ grammar.read grammar.range room (kinds_in result.1.now) }
{
    match past_word(Keyword::Signed, tokens) {
        Some(rest) => (true, rest),
        None => (false, tokens),
    }
}

impl Element for DeclaredName {
    ghost use Rattle.vl_tree.specs.DeclarationSpelling.{spell_declared_name};
    ghost use Rattle.vl_tree.specs.DeclarationWellFormed.{IsDeclaredName};

    ghost phrase = { spell_declared_name };

    ghost fits = { IsDeclaredName };

    ghost rules = { grammar.declared_name ∷ [] };

    ghost tail = { grammar.declared_names };

    ghost closing = { s.Semicolon };

    #[tactic(auto, using(crate::proofs::DeclarationRows::of_declared_name, crate::specs::Tails::tails, crate::proofs::DeclarationRows::basics))]
    fn read(alloc: Global, room: u32, tokens: &[Token]) -> Result<(DeclaredName, &[Token]), Stop> {
        let pos = first_place(tokens)?;
        let (name, rest) = read_name(alloc, tokens)?;
        let (words, rest) = read_range(alloc, room, rest)?;
        let (value, rest) = read_value(alloc, room, rest)?;
        Ok((
            DeclaredName {
                pos,
                name,
                words,
                value,
            },
            rest,
        ))
    }

    ghost use Rattle.vl_parse_decl.specs.Tails.{declared_names_comma_all, declared_names_ending};

    ghost comma = { declared_names_comma_all };

    ghost ending = { declared_names_ending };
}

impl Element for Text {
    ghost use Rattle.vl_tree.specs.Phrase.{a_name};
    ghost use Rattle.vl_tree.specs.ExprWellFormed.{IsName};

    ghost phrase = { a_name };

    ghost fits = { IsName };

    ghost rules = { grammar.name ∷ [] };

    ghost tail = { grammar.names };

    ghost closing = { s.Semicolon };

    #[tactic(auto, using(crate::specs::Tails::tails, crate::proofs::DeclarationRows::basics))]
    fn read(alloc: Global, _room: u32, tokens: &[Token]) -> Result<(Text, &[Token]), Stop> {
        read_name(alloc, tokens)
    }

    ghost use Rattle.vl_parse_decl.specs.Tails.{names_comma_all, names_ending};

    ghost comma = { names_comma_all };

    ghost ending = { names_ending };
}

/// `name = expr`
#[tactic(auto, using(crate::proofs::DeclarationRows::basics))]
fn read_valued_name(
    alloc: Global,
    room: u32,
    tokens: &[Token],
) -> Result<(Text, Expr, &[Token]), Stop>
    ensures found { IfOk result (λ x. Spells
        (a_name x.0 ▸ sign Symbol.Equal ▸ level (spell x.1)) tokens.now x.2.now) }
    ensures name { IfOk result (λ x. IsName x.0) }
    ensures formed { IfOk result (λ x. IsWellFormed x.1) }
    ensures shorter { IfOk result (λ x. length x.2.now < length tokens.now) }
    ensures goes { Goes (λ x. Ok (kinds_in x.2.now)) result
        (then (grammar.read grammar.name room (kinds_in tokens.now)) (λ r. step room r)) }
{
    let (name, rest) = read_name(alloc, tokens)?;
    let (value, rest) = read_step(alloc, room, rest)?;
    Ok((name, value, rest))
}

impl Element for Parameter {
    ghost use Rattle.vl_tree.specs.DeclarationSpelling.{spell_parameter};
    ghost use Rattle.vl_tree.specs.DeclarationWellFormed.{IsParameter};

    ghost phrase = { spell_parameter };

    ghost fits = { IsParameter };

    ghost rules = { grammar.parameter };

    ghost tail = { grammar.parameters };

    ghost closing = { s.Semicolon };

    #[tactic(auto, using(crate::proofs::EndRows::ends, crate::specs::Tails::tails, crate::proofs::DeclarationRows::basics))]
    fn read(alloc: Global, room: u32, tokens: &[Token]) -> Result<(Parameter, &[Token]), Stop> {
        let pos = first_place(tokens)?;
        let (shape, rest) = read_shape(alloc, room, tokens)?;
        let (name, value, rest) = read_valued_name(alloc, room, rest)?;
        Ok((
            Parameter {
                pos,
                shape,
                name,
                value,
            },
            rest,
        ))
    }

    ghost use Rattle.vl_parse_decl.specs.Tails.{parameters_comma_all, parameters_ending};

    ghost comma = { parameters_comma_all };

    ghost ending = { parameters_ending };
}
