//! Attributes (IEEE 1364-2005, sections 3.8 and A.9.1).

ghost use Rattle.std.specs.Prelude.{◌≡◌, ◌∷◌, ◌<◌, ◌≤◌, Ok, length, IfOk, List, []};
ghost use Rattle.vl_tree.specs.Phrase.{Spells, a_name, sign, ◌▸◌};
ghost use Rattle.vl_tree.specs.DeclarationSpelling as spec;
ghost use Rattle.vl_tree.specs.ExprSpelling.{spell_value};
ghost use Rattle.vl_tree.specs.ExprWellFormed.{IsName, IsValue};
ghost use Rattle.vl_parse_decl.specs.Before.{rule_of};
ghost use Rattle.fv_text.specs.declared.kind.Kind.TheVariants as k;
ghost use Rattle.fv_text.specs.declared.symbol.Symbol.TheVariants as s;
ghost use Rattle.vl_tree.specs.DeclarationWellFormed as formed;
ghost use Rattle.vl_parse_grammar.specs.Machine.{then};
ghost use Rattle.vl_parse_grammar.specs.Grammar as grammar;
ghost use Rattle.vl_parse_cursor.specs.Goes.{Goes};
ghost use Rattle.vl_parse_cursor.specs.Next.{kinds_in, IsOther};

use crate::list::{Element, read_list};
use fv_text::{List, Symbol, Text, Token};
use std::alloc::Global;
use vl_parse_cursor::{Stop, add, enter, first_place, past_sign, read_name};
use vl_parse_expr::read_expr;
use vl_tree::{Attribute, AttributeInstance, Expr};

/// `= expr`, where it is there.
#[tactic(auto, using(crate::proofs::DeclarationRows::of_value, crate::proofs::DeclarationRows::basics))]
pub(crate) fn read_value(
    alloc: Global,
    room: u32,
    tokens: &[Token],
) -> Result<(Option<Expr>, &[Token]), Stop>
    ensures found { IfOk result (λ x. Spells (spell_value x.0) tokens.now x.1.now) }
    ensures formed { IfOk result (λ x. IsValue x.0) }
    ensures shorter { IfOk result (λ x. length x.1.now ≤ length tokens.now) }
    ensures goes { Goes (λ x. Ok (kinds_in x.1.now)) result (grammar.read grammar.value room (kinds_in tokens.now)) }
{
    match past_sign(Symbol::Equal, tokens) {
        None => Ok((None, tokens)),
        Some(rest) => {
            let (value, rest) = read_expr(alloc, room, rest)?;
            Ok((Some(value), rest))
        }
    }
}

/// A name, and its value where it is there.
#[tactic(auto, using(crate::proofs::DeclarationRows::basics))]
pub(crate) fn read_named_value(
    alloc: Global,
    room: u32,
    tokens: &[Token],
) -> Result<(Text, Option<Expr>, &[Token]), Stop>
    ensures found { IfOk result (λ x. Spells (a_name x.0 ▸ spell_value x.1) tokens.now x.2.now) }
    ensures name { IfOk result (λ x. IsName x.0) }
    ensures formed { IfOk result (λ x. IsValue x.1) }
    ensures shorter { IfOk result (λ x. length x.2.now < length tokens.now) }
    ensures goes { Goes (λ x. Ok (kinds_in x.2.now)) result
        (then (grammar.read grammar.name room (kinds_in tokens.now)) (λ r. grammar.read grammar.value room r)) }
{
    let (name, rest) = read_name(alloc, tokens)?;
    let (value, rest) = read_value(alloc, room, rest)?;
    Ok((name, value, rest))
}

impl Element for Attribute {
    ghost use Rattle.vl_tree.specs.DeclarationSpelling.{spell_attribute};
    ghost use Rattle.vl_tree.specs.DeclarationWellFormed.{IsAttribute};

    ghost phrase = { spell_attribute };

    ghost fits = { IsAttribute };

    ghost rules = { grammar.name ∷ grammar.value ∷ [] };

    ghost tail = { grammar.attributes };

    ghost closing = { s.CloseAttribute };

    #[tactic(auto, using(crate::proofs::DeclarationRows::of_value, crate::specs::Tails::tails, crate::proofs::DeclarationRows::basics))]
    fn read(alloc: Global, room: u32, tokens: &[Token]) -> Result<(Attribute, &[Token]), Stop> {
        let pos = first_place(tokens)?;
        let (name, value, rest) = read_named_value(alloc, room, tokens)?;
        Ok((Attribute { pos, name, value }, rest))
    }

    ghost use Rattle.vl_parse_decl.specs.Tails.{attributes_comma_all, attributes_ending};

    ghost comma = { attributes_comma_all };

    ghost ending = { attributes_ending };
}

/// What attributes stand before.
#[derive(Clone, Copy)]
pub enum Before {
    Item,
    Stmt,
    Port,
}

/// Those that stand before what they belong to, if any.
#[tactic(auto, using(crate::proofs::ListLaws::each_laws, crate::proofs::DeclarationRows::basics))]
pub fn read_attributes(
    alloc: Global,
    before: Before,
    room: u32,
    tokens: &[Token],
) -> Result<(List<AttributeInstance>, &[Token]), Stop>
    ensures found { IfOk result (λ x. Spells (spec.spell_attributes x.0) tokens.now x.1.now) }
    ensures formed { IfOk result (λ x. formed.AreAttributes x.0) }
    ensures none { IfOk result (λ x. IsOther (k.Symbol s.OpenAttribute) (kinds_in x.1.now)) }
    ensures shorter { IfOk result (λ x. length x.1.now ≤ length tokens.now) }
    ensures goes { Goes (λ x. grammar.read (rule_of before) room (kinds_in x.1.now)) result
        (grammar.read (rule_of before) room (kinds_in tokens.now)) }
{
    let mut all = List::new(alloc);
    let mut rest = tokens;
    while let Some(inside) = past_sign(Symbol::OpenAttribute, rest) {
        let (instance, behind) = read_instance(alloc, before, room, rest, inside)?;
        add(&mut all, instance)?;
        rest = behind;
    }
    Ok((all, rest))
}

/// `(* name = value, name *)`, whose bracket is the first token.
#[tactic(auto, using(crate::proofs::DeclarationRows::of_attributed, crate::proofs::DeclarationRows::basics))]
fn read_instance<'a>(
    alloc: Global,
    before: Before,
    room: u32,
    tokens: &'a [Token],
    behind: &'a [Token],
) -> Result<(AttributeInstance, &'a [Token]), Stop>
    requires bracket { Spells (sign Symbol.OpenAttribute) tokens.now behind.now }
    requires kinds { kinds_in tokens.now ≡ k.Symbol s.OpenAttribute ∷ kinds_in behind.now }
    requires inside { length behind.now < length tokens.now }
    ensures found { IfOk result (λ x. Spells (spec.spell_instance x.0) tokens.entry.now x.1.now) }
    ensures formed { IfOk result (λ x. formed.IsInstance x.0) }
    ensures shorter { IfOk result (λ x. length x.1.now < length tokens.entry.now) }
    ensures goes { Goes (λ x. grammar.read (rule_of before) room (kinds_in x.1.now)) result
        (grammar.read (rule_of before) room (kinds_in tokens.entry.now)) }
{
    let pos = first_place(tokens)?;
    let inside = enter(room, tokens)?;
    let (attributes, rest) = read_list(alloc, inside, Symbol::CloseAttribute, behind)?;
    Ok((AttributeInstance { pos, attributes }, rest))
}
