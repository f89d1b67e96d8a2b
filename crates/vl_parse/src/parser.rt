ghost use Rattle.std.specs.Prelude.{◌≡◌, ℕ, [], IfOk, IfErr};
ghost use Rattle.std.specs.Option.{option_copied};
ghost use Rattle.vl_tree.specs.Phrase.{Spells, kinds_of};
ghost use Rattle.vl_tree.specs.ItemSpelling.{spell_source};
ghost use Rattle.vl_tree.specs.WellFormed.{IsSource};
ghost use Rattle.vl_tree.specs.declared.source.Source as declared;
ghost use Rattle.vl_parse_grammar.specs.Depth.{IsTooDeep};
ghost use Rattle.vl_parse_grammar.specs.Grammar.{run};
ghost use Rattle.vl_parse_grammar.specs.Text.{IsFaulty};
ghost use Rattle.vl_parse.specs.Faults as faults;
ghost use Rattle.vl_parse.specs.Faults.{Answers, wrong_token, deep_fault};
ghost use Rattle.vl_parse.specs.Refusals.{
  IsTreeOf,
  IsShallow,
  NoneIsTooDeep,
  IsFaultOf,
  Gives,
  Refuses,
};

use crate::fault::ParseFault;
use crate::outside::outside_word;
use crate::source::{START, read_source};
use fv_text::{Pos, Token};
use std::alloc::Global;
use vl_parse_cursor::Stop;
use vl_tree::Source;

/// How many constructs may be open at a token.
const MOST_OPEN: u32 = 256;

/// The tree that the tokens spell, whole (IEEE 1364-2005, annex A, cut to this project's subset). A tree comes exactly
/// where the tokens have one in which no more than 256 constructs are open at once, and else the fault that they
/// have, but for want of memory.
pub fn parse(alloc: Global, tokens: &[Token]) -> Result<Source, ParseFault>
    ensures found { IfOk result (λ tree. Spells (spell_source tree) tokens.now []) }
    ensures formed { IfOk result (λ tree. IsSource tree) }
    ensures shallow { IfOk result (λ tree. IsShallow tree) }
    ensures one { IfOk result (λ tree. (other : declared.Source) → IsTreeOf tokens.now other → other ≡ tree) }
    ensures refused { IfErr result (λ fault. IsFaultOf tokens.now fault) }
    ensures each_tree { (tree : declared.Source) → IsTreeOf tokens.now tree → IsShallow tree → Gives tree result }
    ensures each_faulty_token { (left : ℕ) → IsFaulty (kinds_of tokens.now) left → NoneIsTooDeep tokens.now
        → Refuses (wrong_token tokens.now left) result }
    ensures each_deep_token { (left : ℕ) → IsTooDeep (kinds_of tokens.now) left
        → Refuses (deep_fault tokens.now left) result }
    // The same by the grammar: a tree comes exactly where a run reads the tokens to their end.
    ensures answers { Answers tokens.now result (run (kinds_of tokens.now)) }
{
    match read_source(alloc, MOST_OPEN, tokens) {
        Ok(source) => Ok(source),
        Err(Stop::Wrong(left)) => Err(wrong(alloc, tokens, left)),
        Err(Stop::TooDeep(left)) => Err(too_deep(tokens, left)),
        Err(Stop::Memory) => Err(ParseFault::Memory),
    }
}

/// The fault at the token from which so many are left.
fn wrong(alloc: Global, tokens: &[Token], left: usize) -> ParseFault
    ensures { faults.IsMemoryOr (wrong_token tokens.now left) result }
{
    let pos = place(tokens, left);
    let Some(token) = token_at(tokens, left) else {
        return ParseFault::Syntax(pos);
    };
    match outside_word(alloc, &token.kind) {
        Ok(None) => ParseFault::Syntax(pos),
        Ok(Some(word)) => ParseFault::Outside(pos, word),
        Err(_) => ParseFault::Memory,
    }
}

/// The fault where that token is the first one at which 257 constructs are open. The end of the text has the place of
/// the last token, and is wrong where constructs are open: of these two the lower refusal counts.
#[tactic(auto, using(crate::proofs::Top::deep_faults))]
fn too_deep(tokens: &[Token], left: usize) -> ParseFault
    ensures { result ≡ deep_fault tokens.now left }
{
    match left {
        1 => ParseFault::Syntax(place(tokens, 0)),
        _ => ParseFault::TooDeep(place(tokens, left)),
    }
}

/// The token from which so many are left. None at the end.
fn token_at(tokens: &[Token], left: usize) -> Option<&Token>
    ensures { option_copied result ≡ faults.token_at tokens.now left }
{
    tokens.get(tokens.len().saturating_sub(left))
}

/// The place of that token; of the end, that of the last token, or 1:1 of file 1 without tokens.
fn place(tokens: &[Token], left: usize) -> Pos
    ensures { result ≡ faults.place_at tokens.now left }
{
    match token_at(tokens, left) {
        Some(token) => token.pos,
        None => match token_at(tokens, 1) {
            Some(token) => token.pos,
            None => START,
        },
    }
}
