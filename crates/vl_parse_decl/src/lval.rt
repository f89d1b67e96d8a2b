//! Targets of assignments (IEEE 1364-2005, section A.8.5).

ghost use Rattle.std.specs.Prelude.{◌≡◌, ◌<◌, Ok, length, IfOk};
ghost use Rattle.vl_tree.specs.Lval.{lvals};
ghost use Rattle.vl_tree.specs.LvalSpelling as spec;
ghost use Rattle.vl_tree.specs.LvalWellFormed as formed;
ghost use Rattle.vl_tree.specs.Phrase.{Spells, sign, ◌▸◌};
ghost use Rattle.vl_parse_grammar.specs.Machine.{then};
ghost use Rattle.vl_parse_grammar.specs.Grammar as grammar;
ghost use Rattle.vl_parse_cursor.specs.Goes.{Goes};
ghost use Rattle.vl_parse_cursor.specs.Next.{kinds_in};

use fv_text::{List, Symbol, Token};
use std::alloc::Global;
use vl_parse_cursor::{Stop, add, enter, first_place, past_sign, read_name, read_sign};
use vl_parse_expr::read_selects;
use vl_tree::{Lval, LvalKind};

#[cycle(lval)]
#[tactic(auto, using(crate::proofs::DeclarationRows::of_target, crate::proofs::DeclarationRows::basics))]
pub fn read_lval(alloc: Global, room: u32, tokens: &[Token]) -> Result<(Lval, &[Token]), Stop>
    ensures found { IfOk result (λ x. Spells (spec.spell x.0) tokens.now x.1.now) }
    ensures formed { IfOk result (λ x. formed.IsWellFormed x.0) }
    ensures shorter { IfOk result (λ x. length x.1.now < length tokens.now) }
    ensures goes { Goes (λ x. Ok (kinds_in x.1.now)) result (grammar.read grammar.target room (kinds_in tokens.now)) }
{
    let pos = first_place(tokens)?;
    match past_sign(Symbol::OpenBrace, tokens) {
        Some(rest) => {
            let inside = enter(room, tokens)?;
            let (parts, rest) = read_lvals(alloc, inside, rest)?;
            let kind = LvalKind::Concat(parts);
            Ok((Lval { pos, kind }, rest))
        }
        None => {
            let (text, rest) = read_name(alloc, tokens)?;
            let (selects, rest) = read_selects(alloc, room, rest)?;
            let kind = LvalKind::Name(text, selects);
            Ok((Lval { pos, kind }, rest))
        }
    }
}

/// One target or more, up to the closing brace.
#[cycle(lval)]
#[tactic(auto, using(crate::proofs::DeclarationRows::of_targets, crate::proofs::LvalSpelled::lval_spelled, crate::proofs::DeclarationRows::basics))]
fn read_lvals(alloc: Global, room: u32, tokens: &[Token]) -> Result<(List<Lval>, &[Token]), Stop>
    ensures found { IfOk result (λ x. Spells
        (spec.spell_parts (lvals x.0) ▸ sign Symbol.CloseBrace) tokens.now x.1.now) }
    ensures some { IfOk result (λ x. formed.IsSome (lvals x.0)) }
    ensures formed { IfOk result (λ x. formed.AreWellFormed (lvals x.0)) }
    ensures shorter { IfOk result (λ x. length x.1.now < length tokens.now) }
    ensures goes { Goes (λ x. Ok (kinds_in x.1.now)) result
        (then (grammar.read grammar.target room (kinds_in tokens.now)) (λ r. grammar.read grammar.targets room r)) }
{
    let (first, behind) = read_lval(alloc, room, tokens)?;
    let mut all = List::new(alloc);
    add(&mut all, first)?;
    let mut rest = behind;
    while let Some(behind) = past_sign(Symbol::Comma, rest) {
        let (part, behind) = read_lval(alloc, room, behind)?;
        add(&mut all, part)?;
        rest = behind;
    }
    let rest = read_sign(Symbol::CloseBrace, rest)?;
    Ok((all, rest))
}
