//! Modules, and sources of them (IEEE 1364-2005, sections A.1.2 and A.1.3).

ghost use Rattle.std.specs.Prelude.{◌≡◌, ◌<◌, [], Ok, length, IfOk, All};
ghost use Rattle.vl_tree.specs.Phrase.{Spells, each};
ghost use Rattle.vl_tree.specs.ItemSpelling as spec;
ghost use Rattle.vl_tree.specs.WellFormed as formed;
ghost use Rattle.vl_parse_grammar.specs.Machine.{then};
ghost use Rattle.vl_parse_grammar.specs.Grammar as grammar;
ghost use Rattle.vl_parse_cursor.specs.Goes.{Goes};
ghost use Rattle.vl_parse_cursor.specs.Next.{kinds_in};
ghost use Rattle.vl_parse.specs.Sources.{IsStart};

use crate::item::read_items;
use crate::reading::Ending;
use fv_text::{Keyword, List, Pos, Token};
use std::alloc::Global;
use vl_parse_cursor::{Stop, add, first_place, next, read_name, read_word};
use vl_parse_decl::{read_parameters, read_ports};
use vl_tree::{Module, Source};

/// The place of a source without tokens.
pub(crate) const START: Pos = Pos {
    file: 1,
    line: 1,
    col: 1,
};

/// Where a source begins.
fn start(tokens: &[Token]) -> Pos
    ensures { IsStart result tokens.now }
{
    match next(tokens) {
        Some((first, _)) => first.pos,
        None => START,
    }
}

/// Modules up to the end of the tokens.
#[tactic(auto, using(crate::proofs::SourceSpelled::source_spelled))]
pub(crate) fn read_source(alloc: Global, room: u32, tokens: &[Token]) -> Result<Source, Stop>
    ensures found { IfOk result (λ x. Spells (spec.spell_source x) tokens.now []) }
    ensures formed { IfOk result (λ x. formed.IsSource x) }
    ensures goes { Goes (λ x. Ok []) result (grammar.read grammar.modules room (kinds_in tokens.now)) }
{
    let pos = start(tokens);
    let modules = read_modules(alloc, room, tokens)?;
    Ok(Source { pos, modules })
}

#[tactic(auto, using(crate::proofs::SourceSpelled::modules_spelled, crate::proofs::ModuleRows::of_modules))]
fn read_modules(alloc: Global, room: u32, tokens: &[Token]) -> Result<List<Module>, Stop>
    ensures found { IfOk result (λ x. Spells (each spec.spell_module x) tokens.now []) }
    ensures formed { IfOk result (λ x. All formed.IsModule x) }
    ensures goes { Goes (λ x. Ok []) result (grammar.read grammar.modules room (kinds_in tokens.now)) }
{
    let mut modules = List::new(alloc);
    let mut rest = tokens;
    while !rest.is_empty() {
        let (module, behind) = read_module(alloc, room, rest)?;
        add(&mut modules, module)?;
        rest = behind;
    }
    Ok(modules)
}

#[tactic(auto, using(vl_parse_decl::proofs::HeadSpelled::module_spelled, crate::proofs::ModuleRows::of_modules, vl_parse_decl::proofs::DeclarationRows::basics))]
fn read_module(alloc: Global, room: u32, tokens: &[Token]) -> Result<(Module, &[Token]), Stop>
    requires { tokens.now ≡ [] → ⊥ }
    ensures found { IfOk result (λ x. Spells (spec.spell_module x.0) tokens.now x.1.now) }
    ensures formed { IfOk result (λ x. formed.IsModule x.0) }
    ensures shorter { IfOk result (λ x. length x.1.now < length tokens.now) }
    ensures goes { Goes (λ x. grammar.read grammar.modules room (kinds_in x.1.now)) result
        (grammar.read grammar.modules room (kinds_in tokens.now)) }
{
    let pos = first_place(tokens)?;
    let rest = read_word(Keyword::Module, tokens)?;
    let (name, rest) = read_name(alloc, rest)?;
    let (parameters, rest) = read_parameters(alloc, room, rest)?;
    let (ports, rest) = read_ports(alloc, room, rest)?;
    let (items, rest) = read_items(alloc, room, Ending::Endmodule, rest)?;
    Ok((
        Module {
            pos,
            name,
            parameters,
            ports,
            items,
        },
        rest,
    ))
}
