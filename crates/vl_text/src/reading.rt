//! From the bytes of texts to their tree.

ghost use Rattle.std.specs.Prelude.{◌≡◌, ◌++◌, IfErr, IfOk, MatchResult};
ghost use Rattle.vl_prep.specs.Macros.{held};
ghost use Rattle.vl_prep.specs.Places.{IsPlaced};
ghost use Rattle.vl_text.specs.Faults as faults;
ghost use Rattle.vl_text.specs.Places.{AreAtPlaces, AreAtTokens, HasTokenPlaces, IsAtPlace, IsAtToken, IsPlacedIn};
ghost use Rattle.vl_text.specs.Places.{with_starts};
ghost use Rattle.vl_text.specs.SourceText.{Answers, AreLaid, AreParsed, ArePrepared, Comes, FromTokens};
ghost use Rattle.vl_text.specs.Assumptions as assumed;
ghost use Rattle.vl_text.specs.SourceText.{outcome_seen, reading_seen, tree_seen, with_macros};
ghost use Rattle.vl_text.specs.Texts.{lines_seen, texts_seen};

use crate::assumptions::with_assumptions;
use crate::fault::TextFault;
use crate::lexing::Lexed;
use crate::macros::{Core, predefined};
use crate::text::{Assumption, SourceText};
use fv_text::{List, Token};
use std::alloc::Global;
use vl_parse::{ParseFault, parse};
use vl_prep::{Macros, PrepFault, prep};
use vl_tree::Source;

fn of_prep(fault: PrepFault) -> TextFault
    ensures { result ≡ faults.of_prep fault }
{
    match fault {
        PrepFault::Memory => TextFault::Memory,
        fault => TextFault::Prep(fault),
    }
}

fn of_parse(fault: ParseFault) -> TextFault
    ensures { result ≡ faults.of_parse fault }
{
    match fault {
        ParseFault::Memory => TextFault::Memory,
        fault => TextFault::Parse(fault),
    }
}

/// The tokens of the texts, and behind them those of the lines of assumptions.
fn lexed(
    alloc: Global,
    texts: &[SourceText<'_>],
    assumptions: &[Assumption<'_>],
) -> Result<List<Token>, TextFault>
    ensures { Answers (AreLaid (texts_seen texts.now) (lines_seen assumptions.now)) result }
{
    let mut lexed = Lexed::new(alloc);
    lexed.add_texts(alloc, texts)?;
    lexed.add_lines(alloc, assumptions)?;
    match lexed.fault {
        Some(fault) => Err(TextFault::Lex(fault)),
        None => Ok(lexed.tokens),
    }
}

/// What the tokens come to by the predefined macros, and the macros that are defined at their end.
fn prepared(alloc: Global, core: Core, tokens: &[Token]) -> Result<(Vec<Token>, Macros), TextFault>
    ensures exactly { Answers (ArePrepared core tokens.now) (outcome_seen result) }
    ensures placed { MatchResult result (λ r. IsPlaced tokens.now r.0.items) (λ fault. IsAtToken tokens.now fault) }
{
    let macros = predefined(alloc, core)?;
    match prep(alloc, macros, tokens) {
        Ok((output, behind)) => Ok((output, behind)),
        Err(fault) => Err(of_prep(fault)),
    }
}

/// The tree that preprocessed tokens spell.
fn parsed(alloc: Global, tokens: &[Token]) -> Result<Source, TextFault>
    ensures exactly { Answers (AreParsed tokens.now) result }
    ensures placed { MatchResult result (λ tree. AreAtTokens tokens.now tree) (λ fault. IsAtToken tokens.now fault) }
{
    match parse(alloc, tokens) {
        Ok(source) => Ok(source),
        Err(fault) => Err(of_parse(fault)),
    }
}

/// The tree of preprocessed tokens, with assumptions in their place.
fn parsed_with(
    alloc: Global,
    assumptions: &[Assumption<'_>],
    output: Vec<Token>,
) -> Result<Source, TextFault>
    ensures exactly { Answers (AreParsed (assumed.with_assumptions (lines_seen assumptions.now) output.items)) result }
    ensures placed { MatchResult result (λ tree. AreAtPlaces (with_starts (lines_seen assumptions.now) output.items) tree)
        (λ fault. IsAtPlace (with_starts (lines_seen assumptions.now) output.items) fault) }
{
    let tokens = with_assumptions(alloc, assumptions, output)?;
    parsed(alloc, tokens.as_slice())
}

/// A tree with the macros.
fn beside(macros: Macros, tree: Result<Source, TextFault>) -> Result<(Source, Macros), TextFault>
    ensures seen { reading_seen result ≡ with_macros (held macros) tree }
    ensures tree { tree_seen result ≡ tree }
{
    match tree {
        Ok(tree) => Ok((tree, macros)),
        Err(fault) => Err(fault),
    }
}

/// What tokens come to, of which the last ones are those of assumptions.
fn read_tokens(
    alloc: Global,
    core: Core,
    assumptions: &[Assumption<'_>],
    tokens: &[Token],
) -> Result<(Source, Macros), TextFault>
    ensures exactly { Answers (FromTokens core (lines_seen assumptions.now) tokens.now) (reading_seen result) }
    ensures placed { MatchResult result (λ r. AreAtPlaces (with_starts (lines_seen assumptions.now) tokens.now) r.0)
        (λ fault. IsAtPlace (with_starts (lines_seen assumptions.now) tokens.now) fault) }
{
    match prepared(alloc, core, tokens) {
        Ok((output, macros)) => beside(macros, parsed_with(alloc, assumptions, output)),
        Err(fault) => Err(fault),
    }
}

/// The tree of Verilog texts, and the macros that are defined behind them.
///
/// Each text, and behind the texts each line of assumptions, is lexed by itself. All are preprocessed in one list,
/// behind the macros that are predefined for the core. Then what is left of each line of assumptions is put into an
/// item `always @* assume (..);`, these are put in front of the first `endmodule` behind the first `module
/// rvfi_wrapper`, or dropped where there is none, and the tokens are parsed. A fault is that of the first of these
/// parts that refuses.
pub fn read_source(
    alloc: Global,
    core: Core,
    texts: &[SourceText<'_>],
    assumptions: &[Assumption<'_>],
) -> Result<(Source, Macros), TextFault>
    ensures exactly { Answers (Comes core (texts_seen texts.now) (lines_seen assumptions.now)) (reading_seen result) }
    ensures nodes { IfOk result (λ r. HasTokenPlaces (texts_seen texts.now) (lines_seen assumptions.now) r.0) }
    ensures placed { IfErr result (λ fault. IsPlacedIn (texts_seen texts.now ++ lines_seen assumptions.now) fault) }
{
    match lexed(alloc, texts, assumptions) {
        Ok(tokens) => read_tokens(alloc, core, assumptions, tokens.as_slice()),
        Err(fault) => Err(fault),
    }
}
