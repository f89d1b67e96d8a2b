//! Statements (IEEE 1364-2005, section A.6).

ghost use Rattle.std.specs.Prelude.{
  ◌≡◌,
  ◌+◌,
  ◌<◌,
  ◌≤◌,
  [],
  ◌∷◌,
  Ok,
  Some,
  None,
  Option,
  List,
  length,
  IfOk,
  IfErr,
};
ghost use Rattle.std.specs.Prelude.{false, ℕ};
ghost use Rattle.fv_text.specs.declared.kind.Kind.TheVariants as k;
ghost use Rattle.fv_text.specs.declared.symbol.Symbol.TheVariants as s;
ghost use Rattle.fv_text.specs.declared.token.Token.{Token};
ghost use Rattle.vl_tree.specs.Phrase.{Spells, BeginsAt, level, sign, word, ◌▸◌};
ghost use Rattle.vl_tree.specs.ExprSpelling as written;
ghost use Rattle.vl_tree.specs.ExprWellFormed as expr;
ghost use Rattle.vl_tree.specs.LvalWellFormed as lval;
ghost use Rattle.vl_tree.specs.Stmt as tree;
ghost use Rattle.vl_tree.specs.StmtView.{shown, arms};
ghost use Rattle.vl_tree.specs.StmtSpelling as spec;
ghost use Rattle.vl_tree.specs.StmtWellFormed as formed;
ghost use Rattle.vl_parse_grammar.specs.Machine.{then};
ghost use Rattle.vl_parse_grammar.specs.Grammar as grammar;
ghost use Rattle.vl_parse_cursor.specs.Goes.{Goes, IsMemory};
ghost use Rattle.vl_parse_cursor.specs.Next.{kinds_in, IsOther};
ghost use Rattle.fv_text.specs.declared.keyword.Keyword.TheVariants as w;
ghost use Rattle.vl_parse_stmt.specs.Arms as labels;
ghost use Rattle.vl_parse_stmt.specs.StmtLead as lead;
ghost use Rattle.vl_parse_stmt.specs.Bare.{HasNoAttributes};
ghost use Rattle.vl_parse_stmt.specs.Statements.{LeavesElse};

use crate::arm::{begins_label, read_colon, read_labels};
use fv_text::{Keyword, Kind, List, Pos, Symbol, Text, Token};
use std::alloc::Global;
use vl_parse_cursor::{
    Stop, add, enter, first_place, next, past_sign, past_word, read_name, read_sign,
};
use vl_parse_decl::{Before, read_attributes, read_lval};
use vl_parse_expr::{read_expr, read_parens};
use vl_tree::{Arm, AssignKind, CaseKind, Expr, Stmt, StmtKind};

/// What a token begins as the first of a statement behind its attributes.
#[derive(Clone, Copy)]
enum StmtLead {
    Begin,
    If,
    Case(CaseKind),
    Assume,
    Semicolon,
    /// A target, if anything.
    Other,
}

fn stmt_lead_of(kind: &Kind) -> StmtLead
    ensures { result ≡ lead.stmt_lead_of kind.now }
{
    match kind {
        Kind::Keyword(Keyword::Begin) => StmtLead::Begin,
        Kind::Keyword(Keyword::If) => StmtLead::If,
        Kind::Keyword(Keyword::Case) => StmtLead::Case(CaseKind::Case),
        Kind::Keyword(Keyword::Casez) => StmtLead::Case(CaseKind::Casez),
        Kind::Keyword(Keyword::Assume) => StmtLead::Assume,
        Kind::Symbol(Symbol::Semicolon) => StmtLead::Semicolon,
        _ => StmtLead::Other,
    }
}

/// A statement without attributes.
fn bare(alloc: Global, pos: Pos, kind: StmtKind) -> Stmt
    ensures { result ≡ shown [] pos kind }
{
    Stmt {
        attributes: List::new(alloc),
        pos,
        kind,
    }
}

fn boxed<T: Drop>(alloc: Global, value: T) -> Result<Box<T>, Stop>
    ensures same { IfOk result (λ box. box.value ≡ value) }
    ensures memory { IfErr result (λ e. IsMemory e) }
{
    match Box::new(alloc, value) {
        Ok(value) => Ok(value),
        Err(_) => Err(Stop::Memory),
    }
}

#[cycle(stmt)]
#[tactic(auto, using(vl_parse_decl::proofs::DeclarationRows::basics))]
pub fn read_stmt(alloc: Global, room: u32, tokens: &[Token]) -> Result<(Stmt, &[Token]), Stop>
    ensures found { IfOk result (λ x. Spells (spec.spell x.0) tokens.now x.1.now) }
    ensures formed { IfOk result (λ x. formed.IsWellFormed x.0) }
    ensures no_else { IfOk result (λ x. LeavesElse x.0 (kinds_in x.1.now)) }
    ensures shorter { IfOk result (λ x. length x.1.now < length tokens.now) }
    ensures goes { Goes (λ x. Ok (kinds_in x.1.now)) result (grammar.read grammar.stmt room (kinds_in tokens.now)) }
{
    let (attributes, rest) = read_attributes(alloc, Before::Stmt, room, tokens)?;
    let (bare, rest) = read_bare(alloc, room, rest)?;
    let stmt = Stmt {
        attributes,
        pos: bare.pos,
        kind: bare.kind,
    };
    Ok((stmt, rest))
}

/// A statement on the heap.
#[cycle(stmt)]
fn read_boxed(alloc: Global, room: u32, tokens: &[Token]) -> Result<(Box<Stmt>, &[Token]), Stop>
    ensures found { IfOk result (λ x. Spells (spec.spell x.0.value) tokens.now x.1.now) }
    ensures formed { IfOk result (λ x. formed.IsWellFormed x.0.value) }
    ensures no_else { IfOk result (λ x. LeavesElse x.0.value (kinds_in x.1.now)) }
    ensures shorter { IfOk result (λ x. length x.1.now < length tokens.now) }
    ensures goes { Goes (λ x. Ok (kinds_in x.1.now)) result (grammar.read grammar.stmt room (kinds_in tokens.now)) }
{
    let (stmt, rest) = read_stmt(alloc, room, tokens)?;
    Ok((boxed(alloc, stmt)?, rest))
}

/// A statement behind its attributes.
#[cycle(stmt)]
#[tactic(auto, using(crate::proofs::StmtLeads::stmt_leads, vl_parse_decl::proofs::DeclarationRows::basics))]
fn read_bare(alloc: Global, room: u32, tokens: &[Token]) -> Result<(Stmt, &[Token]), Stop>
    requires bare { IsOther (k.Symbol s.OpenAttribute) (kinds_in tokens.now) }
    ensures bare { IfOk result (λ x. HasNoAttributes x.0) }
    ensures found { IfOk result (λ x. Spells (spec.spell x.0) tokens.now x.1.now) }
    ensures formed { IfOk result (λ x. formed.IsWellFormed x.0) }
    ensures no_else { IfOk result (λ x. LeavesElse x.0 (kinds_in x.1.now)) }
    ensures shorter { IfOk result (λ x. length x.1.now < length tokens.now) }
    ensures goes { Goes (λ x. Ok (kinds_in x.1.now)) result (grammar.read grammar.stmt room (kinds_in tokens.now)) }
{
    let Some((first, rest)) = next(tokens) else {
        return Err(Stop::Wrong(0));
    };
    let pos = first.pos;
    match stmt_lead_of(&first.kind) {
        StmtLead::Begin => {
            let inside = enter(room, tokens)?;
            let (label, all, rest) = read_labelled(alloc, inside, rest)?;
            Ok((bare(alloc, pos, StmtKind::Begin(label, all)), rest))
        }
        StmtLead::If => {
            let inside = enter(room, tokens)?;
            read_if(alloc, pos, inside, rest)
        }
        StmtLead::Case(kind) => {
            let inside = enter(room, tokens)?;
            read_case(alloc, pos, inside, kind, rest)
        }
        StmtLead::Assume => read_assume(alloc, pos, room, rest),
        StmtLead::Semicolon => Ok((bare(alloc, pos, StmtKind::Empty), rest)),
        StmtLead::Other => read_assignment(alloc, pos, room, tokens),
    }
}

/// What is behind an `if`. An `else` belongs to the nearest one.
#[cycle(stmt)]
#[tactic(auto, using(crate::proofs::StmtRows::of_otherwise, vl_parse_decl::proofs::DeclarationRows::basics))]
fn read_if(alloc: Global, pos: Pos, room: u32, tokens: &[Token]) -> Result<(Stmt, &[Token]), Stop>
    ensures bare { IfOk result (λ x. HasNoAttributes x.0) }
    ensures found { IfOk result (λ x. (start : List Token) → BeginsAt pos start
        → Spells (word Keyword.If) start tokens.now → Spells (spec.spell x.0) start x.1.now) }
    ensures formed { IfOk result (λ x. formed.IsWellFormed x.0) }
    ensures no_else { IfOk result (λ x. LeavesElse x.0 (kinds_in x.1.now)) }
    ensures shorter { IfOk result (λ x. length x.1.now < length tokens.now) }
    ensures goes { Goes (λ x. Ok (kinds_in x.1.now)) result
        (then (grammar.read grammar.in_parens room (kinds_in tokens.now))
        (λ r. then (grammar.read grammar.stmt room r) (λ q. grammar.read grammar.otherwise room q))) }
{
    let (condition, rest) = read_parens(alloc, room, tokens)?;
    let (first, rest) = read_boxed(alloc, room, rest)?;
    match past_word(Keyword::Else, rest) {
        None => Ok((bare(alloc, pos, StmtKind::If(condition, first, None)), rest)),
        Some(rest) => {
            let (second, rest) = read_boxed(alloc, room, rest)?;
            let kind = StmtKind::If(condition, first, Some(second));
            Ok((bare(alloc, pos, kind), rest))
        }
    }
}

/// What is behind a `case` or `casez`.
#[cycle(stmt)]
#[tactic(auto, using(vl_parse_decl::proofs::DeclarationRows::basics))]
fn read_case(
    alloc: Global,
    pos: Pos,
    room: u32,
    kind: CaseKind,
    tokens: &[Token],
) -> Result<(Stmt, &[Token]), Stop>
    ensures bare { IfOk result (λ x. HasNoAttributes x.0) }
    ensures closed { IfOk result (λ x. formed.ends_open x.0 ≡ false) }
    ensures found { IfOk result (λ x. (start : List Token) → BeginsAt pos start
        → Spells (word (spec.case_word kind)) start tokens.now → Spells (spec.spell x.0) start x.1.now) }
    ensures formed { IfOk result (λ x. formed.IsWellFormed x.0) }
    ensures shorter { IfOk result (λ x. length x.1.now < length tokens.now) }
    ensures goes { Goes (λ x. Ok (kinds_in x.1.now)) result
        (then (grammar.read grammar.in_parens room (kinds_in tokens.now))
        (λ r. grammar.read (grammar.first_arm kind) room r)) }
{
    let (expr, rest) = read_parens(alloc, room, tokens)?;
    let (arms, rest) = read_arms(alloc, room, kind, rest)?;
    Ok((bare(alloc, pos, StmtKind::Case(kind, expr, arms)), rest))
}

/// What is behind an `assume`.
#[tactic(auto, using(vl_parse_decl::proofs::DeclarationRows::basics))]
fn read_assume(
    alloc: Global,
    pos: Pos,
    room: u32,
    tokens: &[Token],
) -> Result<(Stmt, &[Token]), Stop>
    ensures bare { IfOk result (λ x. HasNoAttributes x.0) }
    ensures closed { IfOk result (λ x. formed.ends_open x.0 ≡ false) }
    ensures found { IfOk result (λ x. (start : List Token) → BeginsAt pos start
        → Spells (word Keyword.Assume) start tokens.now → Spells (spec.spell x.0) start x.1.now) }
    ensures formed { IfOk result (λ x. formed.IsWellFormed x.0) }
    ensures shorter { IfOk result (λ x. length x.1.now < length tokens.now) }
    ensures goes { Goes (λ x. Ok (kinds_in x.1.now)) result
        (then (grammar.read grammar.in_parens room (kinds_in tokens.now))
        (λ r. grammar.read (grammar.sign s.Semicolon) room r)) }
{
    let (condition, rest) = read_parens(alloc, room, tokens)?;
    let rest = read_sign(Symbol::Semicolon, rest)?;
    Ok((bare(alloc, pos, StmtKind::Assume(condition)), rest))
}

/// `: label`, where it is there, and statements up to `end`.
#[cycle(stmt)]
#[tactic(auto, using(crate::proofs::StmtRows::of_block, vl_parse_decl::proofs::DeclarationRows::basics))]
fn read_labelled(
    alloc: Global,
    room: u32,
    tokens: &[Token],
) -> Result<(Option<Text>, List<Stmt>, &[Token]), Stop>
    ensures found { IfOk result (λ x. Spells
        ((spec.spell_label x.0 ▸ spec.spell_all (tree.stmts x.1)) ▸ word Keyword.End) tokens.now x.2.now) }
    ensures label { IfOk result (λ x. formed.IsOptionalName x.0) }
    ensures formed { IfOk result (λ x. formed.AreWellFormed (tree.stmts x.1)) }
    ensures shorter { IfOk result (λ x. length x.2.now < length tokens.now) }
    ensures goes { Goes (λ x. Ok (kinds_in x.2.now)) result (grammar.read grammar.block room (kinds_in tokens.now)) }
{
    match past_sign(Symbol::Colon, tokens) {
        Some(rest) => {
            let (label, rest) = read_name(alloc, rest)?;
            let (all, rest) = read_stmts(alloc, room, rest)?;
            Ok((Some(label), all, rest))
        }
        None => {
            let (all, rest) = read_stmts(alloc, room, tokens)?;
            Ok((None, all, rest))
        }
    }
}

/// Statements up to `end`.
#[cycle(stmt)]
#[tactic(auto, using(crate::proofs::StmtRows::of_stmts, crate::proofs::StmtSpelled::stmt_spelled, vl_parse_decl::proofs::DeclarationRows::basics))]
fn read_stmts(alloc: Global, room: u32, tokens: &[Token]) -> Result<(List<Stmt>, &[Token]), Stop>
    ensures found { IfOk result (λ x. Spells (spec.spell_all (tree.stmts x.0)
        ▸ word Keyword.End) tokens.now x.1.now) }
    ensures formed { IfOk result (λ x. formed.AreWellFormed (tree.stmts x.0)) }
    ensures shorter { IfOk result (λ x. length x.1.now < length tokens.now) }
    ensures goes { Goes (λ x. Ok (kinds_in x.1.now)) result (grammar.read grammar.stmts room (kinds_in tokens.now)) }
{
    let mut all = List::new(alloc);
    let mut rest = tokens;
    loop {
        if let Some(behind) = past_word(Keyword::End, rest) {
            return Ok((all, behind));
        }
        let (stmt, behind) = read_stmt(alloc, room, rest)?;
        add(&mut all, stmt)?;
        rest = behind;
    }
}

/// One arm or more, up to `endcase`. At most one has a default.
#[cycle(stmt)]
#[tactic(auto, using(crate::proofs::ArmRows::of_arms, crate::proofs::StmtSpelled::arms_spelled, vl_parse_decl::proofs::DeclarationRows::basics))]
fn read_arms(
    alloc: Global,
    room: u32,
    kind: CaseKind,
    tokens: &[Token],
) -> Result<(List<Arm>, &[Token]), Stop>
    ensures found { IfOk result (λ x. Spells (spec.spell_arms (arms x.0)
        ▸ word Keyword.Endcase) tokens.now x.1.now) }
    ensures some { IfOk result (λ x. formed.AreArmsSome (arms x.0)) }
    ensures single { IfOk result (λ x. formed.default_count (arms x.0) ≤ 1) }
    ensures formed { IfOk result (λ x. formed.AreArms kind (arms x.0)) }
    ensures shorter { IfOk result (λ x. length x.1.now < length tokens.now) }
    ensures goes { Goes (λ x. Ok (kinds_in x.1.now)) result
        (grammar.read (grammar.first_arm kind) room (kinds_in tokens.now)) }
{
    if past_word(Keyword::Endcase, tokens).is_some() {
        return Err(Stop::Wrong(tokens.len()));
    }
    let mut all = List::new(alloc);
    let (first, mut has_default, mut rest) = read_arm(alloc, room, kind, false, tokens)?;
    add(&mut all, first)?;
    loop {
        if let Some(behind) = past_word(Keyword::Endcase, rest) {
            return Ok((all, behind));
        }
        let (arm, is_there, behind) = read_arm(alloc, room, kind, has_default, rest)?;
        add(&mut all, arm)?;
        has_default = is_there;
        rest = behind;
    }
}

/// An arm, and whether a default is there then. The arm is open from its first token on.
#[cycle(stmt)]
#[tactic(auto, using(crate::proofs::ArmRows::of_arm, vl_parse_decl::proofs::DeclarationRows::basics))]
fn read_arm(
    alloc: Global,
    room: u32,
    kind: CaseKind,
    has_default: bool,
    tokens: &[Token],
) -> Result<(Arm, bool, &[Token]), Stop>
    requires more { IsOther (k.Keyword w.Endcase) (kinds_in tokens.now) }
    ensures found { IfOk result (λ x. Spells (spec.spell_arms (arms (x.0 ∷ []))) tokens.now x.2.now) }
    ensures counted { IfOk result (λ x. labels.number_of has_default + formed.default_count (arms (x.0 ∷ []))
        ≡ labels.number_of x.1) }
    ensures formed { IfOk result (λ x. formed.AreArms kind (arms (x.0 ∷ []))) }
    ensures shorter { IfOk result (λ x. length x.2.now < length tokens.now) }
    ensures goes { Goes (λ x. grammar.read (grammar.arms kind x.1) room (kinds_in x.2.now)) result
        (grammar.read (grammar.arms kind has_default) room (kinds_in tokens.now)) }
{
    let Some((first, _)) = next(tokens) else {
        return Err(Stop::Wrong(0));
    };
    let pos = first.pos;
    match past_word(Keyword::Default, tokens) {
        Some(rest) => {
            if has_default {
                return Err(Stop::Wrong(tokens.len()));
            }
            let inside = enter(room, tokens)?;
            let (colon, rest) = read_colon(rest);
            let (body, rest) = read_boxed(alloc, inside, rest)?;
            Ok((Arm::Default(pos, colon, body), true, rest))
        }
        None => {
            if !begins_label(kind, &first.kind) {
                return Err(Stop::Wrong(tokens.len()));
            }
            let inside = enter(room, tokens)?;
            let (labels, rest) = read_labels(alloc, inside, kind, tokens)?;
            let (body, rest) = read_boxed(alloc, inside, rest)?;
            Ok((Arm::Labels(pos, labels, body), has_default, rest))
        }
    }
}

/// `target = value;` or `target <= value;`
#[tactic(auto, using(vl_parse_decl::proofs::DeclarationRows::basics))]
fn read_assignment(
    alloc: Global,
    pos: Pos,
    room: u32,
    tokens: &[Token],
) -> Result<(Stmt, &[Token]), Stop>
    requires here { BeginsAt pos tokens.now }
    ensures bare { IfOk result (λ x. HasNoAttributes x.0) }
    ensures closed { IfOk result (λ x. formed.ends_open x.0 ≡ false) }
    ensures found { IfOk result (λ x. Spells (spec.spell x.0) tokens.now x.1.now) }
    ensures formed { IfOk result (λ x. formed.IsWellFormed x.0) }
    ensures shorter { IfOk result (λ x. length x.1.now < length tokens.now) }
    ensures goes { Goes (λ x. Ok (kinds_in x.1.now)) result
        (then (grammar.read grammar.target room (kinds_in tokens.now))
        (λ r. grammar.read grammar.assign_sign room r)) }
{
    let (target, rest) = read_lval(alloc, room, tokens)?;
    let (kind, value, rest) = read_behind_target(alloc, room, rest)?;
    Ok((
        bare(alloc, pos, StmtKind::Assign(target, kind, value)),
        rest,
    ))
}

/// `= value;` or `<= value;`
#[tactic(auto, using(vl_parse_decl::proofs::DeclarationRows::basics))]
fn read_behind_target(
    alloc: Global,
    room: u32,
    tokens: &[Token],
) -> Result<(AssignKind, Expr, &[Token]), Stop>
    ensures found { IfOk result (λ x. Spells
        (sign (spec.assign_sign x.0) ▸ level (written.spell x.1) ▸ sign Symbol.Semicolon) tokens.now x.2.now) }
    ensures formed { IfOk result (λ x. expr.IsWellFormed x.1) }
    ensures shorter { IfOk result (λ x. length x.2.now < length tokens.now) }
    ensures goes { Goes (λ x. Ok (kinds_in x.2.now)) result
        (grammar.read grammar.assign_sign room (kinds_in tokens.now)) }
{
    let (kind, rest) = read_assign_sign(tokens)?;
    let (value, rest) = read_value(alloc, room, rest)?;
    Ok((kind, value, rest))
}

/// `value;`
#[tactic(auto, using(vl_parse_decl::proofs::DeclarationRows::basics))]
fn read_value(alloc: Global, room: u32, tokens: &[Token]) -> Result<(Expr, &[Token]), Stop>
    ensures found { IfOk result (λ x. Spells
        (level (written.spell x.0) ▸ sign Symbol.Semicolon) tokens.now x.1.now) }
    ensures formed { IfOk result (λ x. expr.IsWellFormed x.0) }
    ensures shorter { IfOk result (λ x. length x.1.now < length tokens.now) }
    ensures goes { Goes (λ x. Ok (kinds_in x.1.now)) result
        (then (grammar.read grammar.expr room (kinds_in tokens.now))
        (λ r. grammar.read (grammar.sign s.Semicolon) room r)) }
{
    let (value, rest) = read_expr(alloc, room, tokens)?;
    let rest = read_sign(Symbol::Semicolon, rest)?;
    Ok((value, rest))
}

#[tactic(auto, using(crate::proofs::StmtRows::of_assign_sign, vl_parse_decl::proofs::DeclarationRows::basics))]
fn read_assign_sign(tokens: &[Token]) -> Result<(AssignKind, &[Token]), Stop>
    ensures found { IfOk result (λ x. Spells (sign (spec.assign_sign x.0)) tokens.now x.1.now) }
    ensures shorter { IfOk result (λ x. length x.1.now < length tokens.now) }
    ensures goes { (room : ℕ) → Goes (λ x. then (grammar.read grammar.expr room (kinds_in x.1.now))
        (λ r. grammar.read (grammar.sign s.Semicolon) room r)) result
        (grammar.read grammar.assign_sign room (kinds_in tokens.now)) }
{
    if let Some(rest) = past_sign(Symbol::Equal, tokens) {
        return Ok((AssignKind::Blocking, rest));
    }
    let rest = read_sign(Symbol::LessEqual, tokens)?;
    Ok((AssignKind::Nonblocking, rest))
}

/// What stands behind `initial`: a blocking assignment, or a block of such.
#[cycle(initial)]
#[tactic(auto, using(crate::proofs::StmtRows::of_initial_stmt, vl_parse_decl::proofs::DeclarationRows::basics))]
pub fn read_initial(alloc: Global, room: u32, tokens: &[Token]) -> Result<(Stmt, &[Token]), Stop>
    ensures found { IfOk result (λ x. Spells (spec.spell x.0) tokens.now x.1.now) }
    ensures formed { IfOk result (λ x. formed.IsWellFormed x.0) }
    ensures initial { IfOk result (λ x. formed.IsInitial x.0) }
    ensures shorter { IfOk result (λ x. length x.1.now < length tokens.now) }
    ensures goes { Goes (λ x. Ok (kinds_in x.1.now)) result
        (grammar.read grammar.initial_stmt room (kinds_in tokens.now)) }
{
    let pos = first_place(tokens)?;
    match past_word(Keyword::Begin, tokens) {
        Some(rest) => {
            let inside = enter(room, tokens)?;
            let (all, rest) = read_initials(alloc, inside, rest)?;
            Ok((bare(alloc, pos, StmtKind::Begin(None, all)), rest))
        }
        None => read_blocking(alloc, pos, room, tokens),
    }
}

/// `target = value;`
#[tactic(auto, using(vl_parse_decl::proofs::DeclarationRows::basics))]
fn read_blocking(
    alloc: Global,
    pos: Pos,
    room: u32,
    tokens: &[Token],
) -> Result<(Stmt, &[Token]), Stop>
    requires here { BeginsAt pos tokens.now }
    ensures found { IfOk result (λ x. Spells (spec.spell x.0) tokens.now x.1.now) }
    ensures formed { IfOk result (λ x. formed.IsWellFormed x.0) }
    ensures initial { IfOk result (λ x. formed.IsInitial x.0) }
    ensures shorter { IfOk result (λ x. length x.1.now < length tokens.now) }
    ensures goes { Goes (λ x. Ok (kinds_in x.1.now)) result
        (then (grammar.read grammar.target room (kinds_in tokens.now))
        (λ r. then (grammar.read (grammar.sign s.Equal) room r)
        (λ q. then (grammar.read grammar.expr room q)
        (λ u. grammar.read (grammar.sign s.Semicolon) room u)))) }
{
    let (target, rest) = read_lval(alloc, room, tokens)?;
    let rest = read_sign(Symbol::Equal, rest)?;
    let (value, rest) = read_value(alloc, room, rest)?;
    let kind = StmtKind::Assign(target, AssignKind::Blocking, value);
    Ok((bare(alloc, pos, kind), rest))
}

/// Such statements up to `end`.
#[cycle(initial)]
#[tactic(auto, using(crate::proofs::StmtRows::of_initial_stmts, crate::proofs::StmtSpelled::stmt_spelled, vl_parse_decl::proofs::DeclarationRows::basics))]
fn read_initials(alloc: Global, room: u32, tokens: &[Token]) -> Result<(List<Stmt>, &[Token]), Stop>
    ensures found { IfOk result (λ x. Spells (spec.spell_all (tree.stmts x.0)
        ▸ word Keyword.End) tokens.now x.1.now) }
    ensures formed { IfOk result (λ x. formed.AreWellFormed (tree.stmts x.0)) }
    ensures initial { IfOk result (λ x. formed.AreInitial (tree.stmts x.0)) }
    ensures shorter { IfOk result (λ x. length x.1.now < length tokens.now) }
    ensures goes { Goes (λ x. Ok (kinds_in x.1.now)) result
        (grammar.read grammar.initial_stmts room (kinds_in tokens.now)) }
{
    let mut all = List::new(alloc);
    let mut rest = tokens;
    loop {
        if let Some(behind) = past_word(Keyword::End, rest) {
            return Ok((all, behind));
        }
        let (stmt, behind) = read_initial(alloc, room, rest)?;
        add(&mut all, stmt)?;
        rest = behind;
    }
}
