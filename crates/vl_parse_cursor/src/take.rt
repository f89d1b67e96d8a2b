//! What stands first among tokens.

ghost use Rattle.std.specs.Prelude.{
  ◌≡◌,
  ◌<◌,
  ◌-◌,
  ◌∷◌,
  [],
  Ok,
  Err,
  length,
  IsNone,
  IfSome,
  IfOk,
  IfErr,
  IsErr,
};
ghost use Rattle.fv_text.specs.declared.kind.Kind.TheVariants as k;
ghost use Rattle.vl_tree.specs.Phrase.{sign, word, a_name, Spells, BeginsAt};
ghost use Rattle.vl_tree.specs.ExprWellFormed.{IsName};
ghost use Rattle.vl_parse_grammar.specs.Machine.{syntax, deep};
ghost use Rattle.vl_parse_cursor.specs.Goes.{Goes, IsMemory, Means};
ghost use Rattle.vl_parse_cursor.specs.Next.{IsOther, IsNoName, behind, behind_name, kinds_in};

use crate::stop::Stop;
use fv_text::{Keyword, Kind, Pos, Symbol, Text, Token};
use std::alloc::Global;

/// The first token, and the tokens behind it.
pub fn next(tokens: &[Token]) -> Option<(&Token, &[Token])>
    ensures some { IfSome result (λ x. tokens.now ≡ x.0.now ∷ x.1.now) }
    ensures none { IsNone result → tokens.now ≡ [] }
{
    match tokens {
        [] => None,
        [first, rest @ ..] => Some((first, rest)),
    }
}

/// What is behind the sign.
pub fn past_sign(symbol: Symbol, tokens: &[Token]) -> Option<&[Token]>
    ensures found { IfSome result (λ rest. Spells (sign symbol) tokens.now rest.now) }
    ensures read { IfSome result (λ rest. kinds_in tokens.now ≡ k.Symbol symbol ∷ kinds_in rest.now) }
    ensures shorter { IfSome result (λ rest. length rest.now < length tokens.now) }
    ensures none { IsNone result → IsOther (k.Symbol symbol) (kinds_in tokens.now) }
{
    match next(tokens) {
        None => None,
        Some((first, rest)) => {
            if first.kind.is_symbol(symbol) {
                Some(rest)
            } else {
                None
            }
        }
    }
}

/// What is behind the keyword.
pub fn past_word(keyword: Keyword, tokens: &[Token]) -> Option<&[Token]>
    ensures found { IfSome result (λ rest. Spells (word keyword) tokens.now rest.now) }
    ensures read { IfSome result (λ rest. kinds_in tokens.now ≡ k.Keyword keyword ∷ kinds_in rest.now) }
    ensures shorter { IfSome result (λ rest. length rest.now < length tokens.now) }
    ensures none { IsNone result → IsOther (k.Keyword keyword) (kinds_in tokens.now) }
{
    match next(tokens) {
        None => None,
        Some((first, rest)) => {
            if first.kind.is_keyword(keyword) {
                Some(rest)
            } else {
                None
            }
        }
    }
}

#[tactic(auto, using(crate::proofs::Tokens::tokens))]
pub fn read_sign(symbol: Symbol, tokens: &[Token]) -> Result<&[Token], Stop>
    ensures found { IfOk result (λ rest. Spells (sign symbol) tokens.now rest.now) }
    ensures read { IfOk result (λ rest. kinds_in tokens.now ≡ k.Symbol symbol ∷ kinds_in rest.now) }
    ensures shorter { IfOk result (λ rest. length rest.now < length tokens.now) }
    ensures goes { Goes (λ rest. Ok (kinds_in rest.now)) result (behind symbol (kinds_in tokens.now)) }
    ensures other { IsErr result → IsOther (k.Symbol symbol) (kinds_in tokens.now) }
    ensures wrong { IfErr result (λ e. Means e (Err (syntax (length tokens.now)))) }
{
    match past_sign(symbol, tokens) {
        Some(rest) => Ok(rest),
        None => Err(Stop::Wrong(tokens.len())),
    }
}

pub fn read_word(keyword: Keyword, tokens: &[Token]) -> Result<&[Token], Stop>
    ensures found { IfOk result (λ rest. Spells (word keyword) tokens.now rest.now) }
    ensures read { IfOk result (λ rest. kinds_in tokens.now ≡ k.Keyword keyword ∷ kinds_in rest.now) }
    ensures shorter { IfOk result (λ rest. length rest.now < length tokens.now) }
    ensures other { IsErr result → IsOther (k.Keyword keyword) (kinds_in tokens.now) }
    ensures wrong { IfErr result (λ e. Means e (Err (syntax (length tokens.now)))) }
{
    match past_word(keyword, tokens) {
        Some(rest) => Ok(rest),
        None => Err(Stop::Wrong(tokens.len())),
    }
}

pub fn copied(alloc: Global, text: &Text) -> Result<Text, Stop>
    ensures same { IfOk result (λ copy. copy ≡ text.now) }
    ensures memory { IfErr result (λ e. IsMemory e) }
{
    match text.copied(alloc) {
        Ok(text) => Ok(text),
        Err(_) => Err(Stop::Memory),
    }
}

#[tactic(auto, using(crate::proofs::Tokens::tokens))]
pub fn read_name(alloc: Global, tokens: &[Token]) -> Result<(Text, &[Token]), Stop>
    ensures found { IfOk result (λ x. Spells (a_name x.0) tokens.now x.1.now) }
    ensures formed { IfOk result (λ x. IsName x.0) }
    ensures read { IfOk result (λ x. kinds_in tokens.now ≡ k.Name x.0 ∷ kinds_in x.1.now) }
    ensures shorter { IfOk result (λ x. length x.1.now < length tokens.now) }
    ensures goes { Goes (λ x. Ok (kinds_in x.1.now)) result (behind_name (kinds_in tokens.now)) }
{
    let Some((first, rest)) = next(tokens) else {
        return Err(Stop::Wrong(0));
    };
    match &first.kind {
        Kind::Name(text) => match copied(alloc, text) {
            Ok(text) => Ok((text, rest)),
            Err(stop) => Err(stop),
        },
        _ => Err(Stop::Wrong(tokens.len())),
    }
}

/// A name, and what is behind it, where one comes first.
pub fn past_name(alloc: Global, tokens: &[Token]) -> Result<Option<(Text, &[Token])>, Stop>
    ensures found { IfOk result (λ found. IfSome found (λ x. Spells (a_name x.0) tokens.now x.1.now)) }
    ensures formed { IfOk result (λ found. IfSome found (λ x. IsName x.0)) }
    ensures read { IfOk result (λ found. IfSome found
        (λ x. kinds_in tokens.now ≡ k.Name x.0 ∷ kinds_in x.1.now)) }
    ensures shorter { IfOk result (λ found. IfSome found (λ x. length x.1.now < length tokens.now)) }
    ensures none { IfOk result (λ found. IsNone found → IsNoName (kinds_in tokens.now)) }
    ensures memory { IfErr result (λ e. IsMemory e) }
{
    match next(tokens) {
        None => Ok(None),
        Some((first, rest)) => match &first.kind {
            Kind::Name(text) => match copied(alloc, text) {
                Ok(text) => Ok(Some((text, rest))),
                Err(stop) => Err(stop),
            },
            _ => Ok(None),
        },
    }
}

/// The room inside of a construct that the first token opens.
pub fn enter(room: u32, tokens: &[Token]) -> Result<u32, Stop>
    ensures some { IfOk result (λ _. 0 < room) }
    ensures inside { IfOk result (λ inside. inside ≡ room - 1) }
    ensures none { IfErr result (λ e. room ≡ 0) }
    ensures deep { IfErr result (λ e. Means e (Err (deep (length tokens.now)))) }
{
    if room == 0 {
        return Err(Stop::TooDeep(tokens.len()));
    }
    Ok(room - 1)
}

/// The place of the first token.
pub fn first_place(tokens: &[Token]) -> Result<Pos, Stop>
    ensures here { IfOk result (λ pos. BeginsAt pos tokens.now) }
    ensures none { IfErr result (λ e. tokens.now ≡ []) }
    ensures wrong { IfErr result (λ e. Means e (Err (syntax 0))) }
{
    match next(tokens) {
        Some((first, _)) => Ok(first.pos),
        None => Err(Stop::Wrong(0)),
    }
}
