//! Items of a module, and blocks of generate constructs (IEEE 1364-2005, sections A.1.4 and A.4.2).

ghost use Rattle.std.specs.Prelude.{
  ◌≡◌,
  ◌+◌,
  ◌<◌,
  ◌≤◌,
  ℕ,
  [],
  ◌∷◌,
  ◌++◌,
  None,
  Ok,
  List,
  length,
  IfOk,
  IfErr,
};
ghost use Rattle.fv_text.specs.declared.kind.Kind.TheVariants as k;
ghost use Rattle.fv_text.specs.declared.symbol.Symbol.TheVariants as s;
ghost use Rattle.fv_text.specs.declared.token.Token.{Token};
ghost use Rattle.vl_tree.specs.Phrase.{Spells, BeginsAt, sign, word, ◌▸◌};
ghost use Rattle.vl_tree.specs.Item as tree;
ghost use Rattle.vl_tree.specs.ItemView.{block};
ghost use Rattle.vl_tree.specs.ItemSpelling as spec;
ghost use Rattle.vl_tree.specs.StmtSpelling.{spell_label};
ghost use Rattle.vl_tree.specs.StmtWellFormed.{IsOptionalName};
ghost use Rattle.vl_tree.specs.WellFormed as formed;
ghost use Rattle.vl_parse_grammar.specs.Machine.{then};
ghost use Rattle.vl_parse_grammar.specs.Grammar as grammar;
ghost use Rattle.vl_parse_cursor.specs.Goes.{Goes, IsMemory};
ghost use Rattle.vl_parse_cursor.specs.Next.{kinds_in, IsOther};
ghost use Rattle.vl_parse.specs.Items as items;

use crate::plain::read_plain;
use crate::reading::{Ending, Front, Reading, bare, with_attributes};
use fv_text::{Keyword, List, Pos, Symbol, Text, Token};
use std::alloc::Global;
use vl_parse_cursor::{Stop, enter, first_place, past_sign, past_word, read_name};
use vl_parse_decl::{Before, read_attributes, read_head};
use vl_parse_expr::read_parens;
use vl_tree::{Block, Item, ItemKind};

/// An item behind its attributes, which isn't a region.
#[cycle(item)]
#[tactic(auto, using(crate::proofs::ItemRows::of_item, crate::proofs::ItemSpelled::item_spelled, vl_parse_decl::proofs::DeclarationRows::basics))]
fn read_item(alloc: Global, room: u32, tokens: &[Token]) -> Result<(Item, &[Token]), Stop>
    requires bare { IsOther (k.Symbol s.OpenAttribute) (kinds_in tokens.now) }
    requires no_generate { IsOther (k.Keyword Keyword.Generate) (kinds_in tokens.now) }
    ensures bare { IfOk result (λ x. formed.attributes_of x.0 ≡ []) }
    ensures unmarked { IfOk result (λ x. formed.mark_of x.0 ≡ None) }
    ensures found { IfOk result (λ x. Spells (spec.spell x.0) tokens.now x.1.now) }
    ensures formed { IfOk result (λ x. formed.IsWellFormed x.0) }
    ensures no_else { IfOk result (λ x. items.LeavesElse (formed.ends_open x.0) (kinds_in x.1.now)) }
    ensures shorter { IfOk result (λ x. length x.1.now < length tokens.now) }
    ensures goes { Goes (λ x. Ok (kinds_in x.1.now)) result (grammar.read grammar.item room (kinds_in tokens.now)) }
{
    let pos = first_place(tokens)?;
    if let Some(rest) = past_word(Keyword::If, tokens) {
        let inside = enter(room, tokens)?;
        return read_if(alloc, pos, inside, rest);
    }
    if let Some(rest) = past_word(Keyword::For, tokens) {
        let inside = enter(room, tokens)?;
        return read_for(alloc, pos, inside, rest);
    }
    read_plain(alloc, room, tokens)
}

/// What is behind the `for` of a generate construct.
#[cycle(item)]
#[tactic(auto, using(crate::proofs::ItemSpelled::item_spelled))]
fn read_for(alloc: Global, pos: Pos, room: u32, tokens: &[Token]) -> Result<(Item, &[Token]), Stop>
    ensures bare { IfOk result (λ x. formed.attributes_of x.0 ≡ []) }
    ensures unmarked { IfOk result (λ x. formed.mark_of x.0 ≡ None) }
    ensures found { IfOk result (λ x. (start : List Token) → BeginsAt pos start
        → Spells (word Keyword.For) start tokens.now → Spells (spec.spell x.0) start x.1.now) }
    ensures formed { IfOk result (λ x. formed.IsWellFormed x.0) }
    ensures no_else { IfOk result (λ x. items.LeavesElse (formed.ends_open x.0) (kinds_in x.1.now)) }
    ensures shorter { IfOk result (λ x. length x.1.now < length tokens.now) }
    ensures goes { Goes (λ x. Ok (kinds_in x.1.now)) result
        (then (grammar.read grammar.loop_head room (kinds_in tokens.now))
        (λ r. grammar.read grammar.generate_block room r)) }
{
    let (head, rest) = read_head(alloc, room, tokens)?;
    let (body, rest) = read_block(alloc, room, rest)?;
    Ok((bare(alloc, pos, ItemKind::For(head, body)), rest))
}

/// What is behind the `if` of a generate construct. An `else` belongs to the nearest one.
#[cycle(item)]
#[tactic(auto, using(crate::proofs::ItemRows::of_generate_otherwise, crate::proofs::ItemSpelled::if_spelled, vl_parse_decl::proofs::DeclarationRows::basics))]
fn read_if(alloc: Global, pos: Pos, room: u32, tokens: &[Token]) -> Result<(Item, &[Token]), Stop>
    ensures bare { IfOk result (λ x. formed.attributes_of x.0 ≡ []) }
    ensures unmarked { IfOk result (λ x. formed.mark_of x.0 ≡ None) }
    ensures found { IfOk result (λ x. (start : List Token) → BeginsAt pos start
        → Spells (word Keyword.If) start tokens.now → Spells (spec.spell x.0) start x.1.now) }
    ensures formed { IfOk result (λ x. formed.IsWellFormed x.0) }
    ensures no_else { IfOk result (λ x. items.LeavesElse (formed.ends_open x.0) (kinds_in x.1.now)) }
    ensures shorter { IfOk result (λ x. length x.1.now < length tokens.now) }
    ensures goes { Goes (λ x. Ok (kinds_in x.1.now)) result
        (then (grammar.read grammar.in_parens room (kinds_in tokens.now))
        (λ r. then (grammar.read grammar.generate_block room r)
        (λ q. grammar.read grammar.generate_otherwise room q))) }
{
    let (condition, rest) = read_parens(alloc, room, tokens)?;
    let (first, rest) = read_block(alloc, room, rest)?;
    match past_word(Keyword::Else, rest) {
        None => Ok((bare(alloc, pos, ItemKind::If(condition, first, None)), rest)),
        Some(rest) => {
            let (second, rest) = read_block(alloc, room, rest)?;
            let kind = ItemKind::If(condition, first, Some(second));
            Ok((bare(alloc, pos, kind), rest))
        }
    }
}

/// Items up to the closing word. A region within is two marks, so it is read without recursion.
#[cycle(item)]
#[tactic(auto, using(crate::proofs::ItemsSpelled::still_read, crate::proofs::ItemsSpelled::whole_read, vl_parse_decl::proofs::DeclarationRows::basics))]
pub fn read_items(
    alloc: Global,
    room: u32,
    ending: Ending,
    tokens: &[Token],
) -> Result<(List<Item>, &[Token]), Stop>
    ensures found { IfOk result (λ x. Spells
        (spec.spell_all (tree.items x.0) ▸ word (items.word_of ending)) tokens.now x.1.now) }
    ensures balanced { IfOk result (λ x. formed.AreBalanced (tree.items x.0)) }
    ensures formed { IfOk result (λ x. formed.AreWellFormed (tree.items x.0)) }
    ensures shorter { IfOk result (λ x. length x.1.now < length tokens.now) }
    ensures goes { Goes (λ x. Ok (kinds_in x.1.now)) result
        (grammar.read (grammar.items (items.ending_of ending)) room (kinds_in tokens.now)) }
{
    let mut reading = Reading {
        all: List::new(alloc),
        regions: 0,
    };
    let mut rest = tokens;
    loop {
        if let Some(behind) = past_word(reading.ending(ending).word(), rest) {
            if reading.regions == 0 {
                return Ok((reading.all, behind));
            }
            let pos = first_place(rest)?;
            reading = reading.closed(alloc, pos)?;
            rest = behind;
        } else {
            let (front, behind) = read_front(alloc, room, rest)?;
            reading = reading.with_front(front)?;
            rest = behind;
        }
    }
}

/// An item with its attributes, or what begins a generate region.
#[cycle(item)]
#[tactic(auto, using(crate::proofs::ItemRows::of_front, crate::proofs::ItemsSpelled::with_found, vl_parse_decl::proofs::DeclarationRows::basics))]
fn read_front(alloc: Global, room: u32, tokens: &[Token]) -> Result<(Front, &[Token]), Stop>
    ensures found { IfOk result (λ x. Spells (items.spell_front x.0) tokens.now x.1.now) }
    ensures formed { IfOk result (λ x. items.IsFront x.0) }
    ensures shorter { IfOk result (λ x. length x.1.now < length tokens.now) }
    ensures goes { Goes (λ x. items.behind_front x.0 room (kinds_in x.1.now)) result
        (grammar.read grammar.item room (kinds_in tokens.now)) }
{
    let (attributes, front) = read_attributes(alloc, Before::Item, room, tokens)?;
    match past_word(Keyword::Generate, front) {
        Some(behind) => {
            let pos = first_place(front)?;
            Ok((Front::Generate(attributes, pos), behind))
        }
        None => {
            let (item, behind) = read_item(alloc, room, front)?;
            Ok((Front::Item(with_attributes(attributes, item)), behind))
        }
    }
}

/// `: label`, where it is there, and items up to `end`.
#[cycle(item)]
#[tactic(auto, using(crate::proofs::ItemRows::of_generate_block_label, vl_parse_decl::proofs::DeclarationRows::basics))]
fn read_labelled(
    alloc: Global,
    room: u32,
    tokens: &[Token],
) -> Result<(Option<Text>, List<Item>, &[Token]), Stop>
    ensures found { IfOk result (λ x. Spells
        ((spell_label x.0 ▸ spec.spell_all (tree.items x.1)) ▸ word Keyword.End) tokens.now x.2.now) }
    ensures label { IfOk result (λ x. IsOptionalName x.0) }
    ensures balanced { IfOk result (λ x. formed.AreBalanced (tree.items x.1)) }
    ensures formed { IfOk result (λ x. formed.AreWellFormed (tree.items x.1)) }
    ensures shorter { IfOk result (λ x. length x.2.now < length tokens.now) }
    ensures goes { Goes (λ x. Ok (kinds_in x.2.now)) result
        (grammar.read grammar.generate_block_label room (kinds_in tokens.now)) }
{
    match past_sign(Symbol::Colon, tokens) {
        Some(rest) => {
            let (label, rest) = read_name(alloc, rest)?;
            let (all, rest) = read_items(alloc, room, Ending::End, rest)?;
            Ok((Some(label), all, rest))
        }
        None => {
            let (all, rest) = read_items(alloc, room, Ending::End, tokens)?;
            Ok((None, all, rest))
        }
    }
}

/// A block of a generate construct. No attributes stand before its one item.
#[cycle(item)]
#[tactic(auto, using(crate::proofs::ItemRows::of_generate_block, vl_parse_decl::proofs::DeclarationRows::basics))]
fn read_block(alloc: Global, room: u32, tokens: &[Token]) -> Result<(Block, &[Token]), Stop>
    ensures found { IfOk result (λ x. Spells (spec.spell_block (block x.0)) tokens.now x.1.now) }
    ensures formed { IfOk result (λ x. formed.IsBlock (block x.0)) }
    ensures no_else { IfOk result (λ x. items.LeavesElse (formed.block_ends_open (block x.0)) (kinds_in x.1.now)) }
    ensures shorter { IfOk result (λ x. length x.1.now < length tokens.now) }
    ensures goes { Goes (λ x. Ok (kinds_in x.1.now)) result
        (grammar.read grammar.generate_block room (kinds_in tokens.now)) }
{
    match past_word(Keyword::Begin, tokens) {
        Some(rest) => {
            let pos = first_place(tokens)?;
            let inside = enter(room, tokens)?;
            let (label, all, rest) = read_labelled(alloc, inside, rest)?;
            Ok((Block::Begin(pos, label, all), rest))
        }
        None => read_short_block(alloc, room, tokens),
    }
}

/// A block without `begin`: a region, or one item.
#[cycle(item)]
#[tactic(auto, using(crate::proofs::ItemRows::of_short_block, crate::proofs::ItemSpelled::block_spelled, vl_parse_decl::proofs::DeclarationRows::basics))]
fn read_short_block(alloc: Global, room: u32, tokens: &[Token]) -> Result<(Block, &[Token]), Stop>
    requires no_begin { IsOther (k.Keyword Keyword.Begin) (kinds_in tokens.now) }
    ensures found { IfOk result (λ x. Spells (spec.spell_block (block x.0)) tokens.now x.1.now) }
    ensures formed { IfOk result (λ x. formed.IsBlock (block x.0)) }
    ensures no_else { IfOk result (λ x. items.LeavesElse (formed.block_ends_open (block x.0)) (kinds_in x.1.now)) }
    ensures shorter { IfOk result (λ x. length x.1.now < length tokens.now) }
    ensures goes { Goes (λ x. Ok (kinds_in x.1.now)) result
        (grammar.read grammar.generate_block room (kinds_in tokens.now)) }
{
    if let Some(rest) = past_word(Keyword::Generate, tokens) {
        let pos = first_place(tokens)?;
        let (all, rest) = read_items(alloc, room, Ending::Endgenerate, rest)?;
        return Ok((Block::Region(pos, all), rest));
    }
    if past_sign(Symbol::OpenAttribute, tokens).is_some() {
        return Err(Stop::Wrong(tokens.len()));
    }
    let (item, rest) = read_item(alloc, room, tokens)?;
    Ok((Block::Single(boxed(alloc, item)?), rest))
}

fn boxed<T: Drop>(alloc: Global, value: T) -> Result<Box<T>, Stop>
    ensures same { IfOk result (λ box. box.value ≡ value) }
    ensures memory { IfErr result (λ e. IsMemory e) }
{
    match Box::new(alloc, value) {
        Ok(value) => Ok(value),
        Err(_) => Err(Stop::Memory),
    }
}
