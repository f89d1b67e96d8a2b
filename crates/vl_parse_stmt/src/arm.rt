//! The labels of a case (IEEE 1364-2005, sections 9.5 and A.6.7).

ghost use Rattle.std.specs.Prelude.{◌≡◌, ℕ, ◌<◌, ◌≤◌, Ok, length, IfOk};
ghost use Rattle.vl_tree.specs.DeclarationWellFormed.{AreSome};
ghost use Rattle.vl_tree.specs.Phrase.{Spells, sign, between_commas, ◌▸◌};
ghost use Rattle.vl_tree.specs.StmtSpelling as spec;
ghost use Rattle.vl_tree.specs.StmtWellFormed as formed;
ghost use Rattle.vl_parse_grammar.specs.Machine.{then};
ghost use Rattle.vl_parse_grammar.specs.Grammar as grammar;
ghost use Rattle.vl_parse_stmt.specs.Arms as labels;
ghost use Rattle.vl_parse_cursor.specs.Goes.{Goes};
ghost use Rattle.vl_parse_cursor.specs.Next.{kinds_in};

use fv_text::{Kind, List, Number, Symbol, Token};
use std::alloc::Global;
use vl_parse_cursor::{Lead, Stop, add, lead_of, next, past_sign, read_sign};
use vl_parse_expr::{number, read_expr};
use vl_tree::{CaseKind, Expr};

/// A colon, where it is there.
#[tactic(auto, using(crate::proofs::StmtRows::of_default, crate::proofs::StmtRows::of_behind_default))]
pub(crate) fn read_colon(tokens: &[Token]) -> (bool, &[Token])
    ensures found { Spells (spec.spell_colon result.0) tokens.now result.1.now }
    ensures shorter { length result.1.now ≤ length tokens.now }
    ensures goes { (room : ℕ) → grammar.read grammar.behind_default room (kinds_in tokens.now)
        ≡ grammar.read grammar.stmt room (kinds_in result.1.now) }
{
    match past_sign(Symbol::Colon, tokens) {
        Some(rest) => (true, rest),
        None => (false, tokens),
    }
}

pub(crate) fn begins_label(case: CaseKind, kind: &Kind) -> bool
    ensures { result ≡ labels.begins_label case kind.now }
{
    match wild_label(case, kind) {
        Some(_) => true,
        None => !matches!(lead_of(kind), Lead::Nothing),
    }
}

/// A number that is a label of a `casez` though no expression.
fn wild_label(case: CaseKind, kind: &Kind) -> Option<Number>
    ensures { result ≡ labels.wild_label case kind.now }
{
    match case {
        CaseKind::Case => None,
        CaseKind::Casez => match kind {
            Kind::Number(number) => {
                if number.wild != 0 && number.unknown == 0 {
                    Some(*number)
                } else {
                    None
                }
            }
            _ => None,
        },
    }
}

/// The labels of an arm, up to the colon.
#[tactic(auto, using(crate::proofs::ArmRows::of_labels, vl_parse_decl::proofs::ListLaws::list_laws, vl_parse_decl::proofs::DeclarationRows::basics))]
pub(crate) fn read_labels(
    alloc: Global,
    room: u32,
    kind: CaseKind,
    tokens: &[Token],
) -> Result<(List<Expr>, &[Token]), Stop>
    ensures found { IfOk result (λ x. Spells
        (between_commas spec.spell_one_label x.0 ▸ sign Symbol.Colon) tokens.now x.1.now) }
    ensures formed { IfOk result (λ x. AreSome (λ e. formed.IsLabel kind e) x.0) }
    ensures shorter { IfOk result (λ x. length x.1.now < length tokens.now) }
    ensures goes { Goes (λ x. grammar.read grammar.stmt room (kinds_in x.1.now)) result
        (then (grammar.read (grammar.label kind) room (kinds_in tokens.now))
        (λ r. grammar.read (grammar.labels kind) room r)) }
{
    let mut all = List::new(alloc);
    let (first, mut rest) = read_case_label(alloc, room, kind, tokens)?;
    add(&mut all, first)?;
    while let Some(behind) = past_sign(Symbol::Comma, rest) {
        let (label, behind) = read_case_label(alloc, room, kind, behind)?;
        add(&mut all, label)?;
        rest = behind;
    }
    let rest = read_sign(Symbol::Colon, rest)?;
    Ok((all, rest))
}

#[tactic(auto, using(crate::proofs::ArmRows::of_label, vl_parse_decl::proofs::DeclarationRows::basics))]
fn read_case_label(
    alloc: Global,
    room: u32,
    kind: CaseKind,
    tokens: &[Token],
) -> Result<(Expr, &[Token]), Stop>
    ensures found { IfOk result (λ x. Spells (spec.spell_one_label x.0) tokens.now x.1.now) }
    ensures formed { IfOk result (λ x. formed.IsLabel kind x.0) }
    ensures shorter { IfOk result (λ x. length x.1.now < length tokens.now) }
    ensures goes { Goes (λ x. Ok (kinds_in x.1.now)) result
        (grammar.read (grammar.label kind) room (kinds_in tokens.now)) }
{
    let Some((first, rest)) = next(tokens) else {
        return Err(Stop::Wrong(0));
    };
    match wild_label(kind, &first.kind) {
        Some(wild) => Ok((number(first.pos, wild), rest)),
        None => read_expr(alloc, room, tokens),
    }
}
