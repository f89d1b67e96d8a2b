//! Items of a module that have no items in them (IEEE 1364-2005, section A.1.4).

ghost use Rattle.std.specs.Prelude.{◌≡◌, ◌<◌, [], None, Ok, length, IfOk};
ghost use Rattle.fv_text.specs.declared.kind.Kind.TheVariants as k;
ghost use Rattle.fv_text.specs.declared.symbol.Symbol.TheVariants as s;
ghost use Rattle.vl_tree.specs.Phrase.{Spells, sign, between_commas, ◌▸◌};
ghost use Rattle.vl_tree.specs.ItemSpelling as spec;
ghost use Rattle.vl_tree.specs.DeclarationSpelling as declared;
ghost use Rattle.vl_tree.specs.WellFormed as formed;
ghost use Rattle.vl_parse_grammar.specs.Machine.{then};
ghost use Rattle.vl_parse_grammar.specs.Grammar as grammar;
ghost use Rattle.vl_parse_cursor.specs.Goes.{Goes};
ghost use Rattle.vl_parse_cursor.specs.Next.{kinds_in, IsOther};
ghost use Rattle.vl_parse.specs.ItemLead as lead;
ghost use Rattle.vl_parse.specs.Items as items;

use crate::reading::bare;
use fv_text::{Keyword, Kind, Symbol, Token};
use std::alloc::Global;
use vl_parse_cursor::{Stop, next, read_sign};
use vl_parse_decl::{read_event, read_instance, read_list, read_shape};
use vl_parse_stmt::{read_initial, read_stmt};
use vl_tree::{Declaration, Item, ItemKind, NetKind, ParameterKind};

/// What a token begins as the first of an item that has no items in it, behind its attributes.
#[derive(Clone, Copy)]
enum ItemLead {
    Net(NetKind),
    Integer,
    Genvar,
    Parameter(ParameterKind),
    Assign,
    Always,
    Initial,
    Instance,
    Nothing,
}

fn item_lead_of(kind: &Kind) -> ItemLead
    ensures { result ≡ lead.item_lead_of kind.now }
{
    match kind {
        Kind::Keyword(keyword) => item_lead_of_word(*keyword),
        Kind::Name(_) => ItemLead::Instance,
        _ => ItemLead::Nothing,
    }
}

fn item_lead_of_word(keyword: Keyword) -> ItemLead
    ensures { result ≡ lead.item_lead_of_word keyword }
{
    match keyword {
        Keyword::Wire => ItemLead::Net(NetKind::Wire),
        Keyword::Reg => ItemLead::Net(NetKind::Reg),
        Keyword::Integer => ItemLead::Integer,
        Keyword::Genvar => ItemLead::Genvar,
        Keyword::Parameter => ItemLead::Parameter(ParameterKind::Parameter),
        Keyword::Localparam => ItemLead::Parameter(ParameterKind::Localparam),
        Keyword::Assign => ItemLead::Assign,
        Keyword::Always => ItemLead::Always,
        Keyword::Initial => ItemLead::Initial,
        _ => ItemLead::Nothing,
    }
}

/// An item that has no items in it.
#[tactic(auto, using(crate::proofs::ItemLeads::item_leads, crate::proofs::ItemLeads::item_kinds, vl_parse_decl::specs::Tails::tails, vl_parse_decl::proofs::DeclarationRows::basics))]
pub(crate) fn read_plain(
    alloc: Global,
    room: u32,
    tokens: &[Token],
) -> Result<(Item, &[Token]), Stop>
    requires bare { IsOther (k.Symbol s.OpenAttribute) (kinds_in tokens.now) }
    requires no_if { IsOther (k.Keyword Keyword.If) (kinds_in tokens.now) }
    requires no_for { IsOther (k.Keyword Keyword.For) (kinds_in tokens.now) }
    requires no_generate { IsOther (k.Keyword Keyword.Generate) (kinds_in tokens.now) }
    ensures bare { IfOk result (λ x. formed.attributes_of x.0 ≡ []) }
    ensures unmarked { IfOk result (λ x. formed.mark_of x.0 ≡ None) }
    ensures found { IfOk result (λ x. Spells (spec.spell x.0) tokens.now x.1.now) }
    ensures formed { IfOk result (λ x. formed.IsWellFormed x.0) }
    ensures no_else { IfOk result (λ x. items.LeavesElse (formed.ends_open x.0) (kinds_in x.1.now)) }
    ensures shorter { IfOk result (λ x. length x.1.now < length tokens.now) }
    ensures goes { Goes (λ x. Ok (kinds_in x.1.now)) result (grammar.read grammar.item room (kinds_in tokens.now)) }
{
    let Some((first, rest)) = next(tokens) else {
        return Err(Stop::Wrong(0));
    };
    let pos = first.pos;
    match item_lead_of(&first.kind) {
        ItemLead::Net(net) => {
            let (declaration, rest) = read_declaration(alloc, net, room, rest)?;
            Ok((bare(alloc, pos, ItemKind::Declaration(declaration)), rest))
        }
        ItemLead::Integer => {
            let (names, rest) = read_list(alloc, room, Symbol::Semicolon, rest)?;
            Ok((bare(alloc, pos, ItemKind::Integer(names)), rest))
        }
        ItemLead::Genvar => {
            let (names, rest) = read_list(alloc, room, Symbol::Semicolon, rest)?;
            Ok((bare(alloc, pos, ItemKind::Genvar(names)), rest))
        }
        ItemLead::Parameter(kind) => {
            let (all, rest) = read_list(alloc, room, Symbol::Semicolon, rest)?;
            Ok((bare(alloc, pos, ItemKind::Parameter(kind, all)), rest))
        }
        ItemLead::Assign => {
            let (all, rest) = read_list(alloc, room, Symbol::Semicolon, rest)?;
            Ok((bare(alloc, pos, ItemKind::Assign(all)), rest))
        }
        ItemLead::Always => {
            let rest = read_sign(Symbol::At, rest)?;
            let (event, rest) = read_event(alloc, room, rest)?;
            let (stmt, rest) = read_stmt(alloc, room, rest)?;
            Ok((bare(alloc, pos, ItemKind::Always(event, stmt)), rest))
        }
        ItemLead::Initial => {
            let (stmt, rest) = read_initial(alloc, room, rest)?;
            Ok((bare(alloc, pos, ItemKind::Initial(stmt)), rest))
        }
        ItemLead::Instance => {
            let (instance, rest) = read_instance(alloc, room, tokens)?;
            Ok((bare(alloc, pos, ItemKind::Instance(instance)), rest))
        }
        ItemLead::Nothing => Err(Stop::Wrong(tokens.len())),
    }
}

#[tactic(auto, using(vl_parse_decl::specs::Tails::tails, vl_parse_decl::proofs::DeclarationRows::basics))]
fn read_declaration(
    alloc: Global,
    net: NetKind,
    room: u32,
    tokens: &[Token],
) -> Result<(Declaration, &[Token]), Stop>
    ensures found { IfOk result (λ x. Spells
        (declared.spell_shape x.0.shape ▸ between_commas declared.spell_declared_name x.0.names ▸ sign
        Symbol.Semicolon) tokens.now x.1.now) }
    ensures net { IfOk result (λ x. x.0.net ≡ net) }
    ensures formed { IfOk result (λ x. formed.IsDeclaration x.0) }
    ensures shorter { IfOk result (λ x. length x.1.now < length tokens.now) }
    ensures goes { Goes (λ x. Ok (kinds_in x.1.now)) result
        (then (grammar.read grammar.shape room (kinds_in tokens.now))
        (λ r. then (grammar.read grammar.declared_name room r) (λ q. grammar.read grammar.declared_names room q))) }
{
    let (shape, rest) = read_shape(alloc, room, tokens)?;
    let (names, rest) = read_list(alloc, room, Symbol::Semicolon, rest)?;
    Ok((Declaration { net, shape, names }, rest))
}
