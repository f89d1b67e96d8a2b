//! Lines of assumptions: their items, made of what the preprocessor leaves of them, and where these stand.

ghost use Rattle.std.specs.Prelude.{◌≡◌, ◌≤◌, ◌++◌, length, take, drop, IfOk, OnOk};
ghost use Rattle.vl_text.specs.Assumptions as spec;
ghost use Rattle.vl_text.specs.Steps.{sorted, with_token};
ghost use Rattle.vl_text.specs.Texts.{line_seen, lines_seen};

use crate::text::Assumption;
use crate::top_module::end_of_top;
use fv_text::{Keyword, Kind, List, Memory, Pos, Symbol, Token};
use std::alloc::Global;

/// The lines of the configuration that are assumptions.
#[derive(Debug, Clone, Copy)]
pub(crate) struct Section {
    pub first: u32,
    pub last: u32,
}

impl Section {
    fn has(self, at: Pos) -> bool
        ensures { result ≡ spec.is_within self at }
    {
        at.file == 0 && self.first <= at.line && at.line <= self.last
    }
}

fn word_at(word: Keyword, at: Pos) -> Token
    ensures { result ≡ spec.word_at word at }
{
    Token {
        kind: Kind::Keyword(word),
        pos: at,
    }
}

fn sign_at(sign: Symbol, at: Pos) -> Token
    ensures { result ≡ spec.sign_at sign at }
{
    Token {
        kind: Kind::Symbol(sign),
        pos: at,
    }
}

/// `always @* assume (` behind what is there.
fn push_front(tokens: &mut Vec<Token>, at: Pos) -> Result<(), Memory>
    ensures { OnOk result (tokens.new.items ≡ tokens.old.items ++ spec.front_at at) }
{
    tokens.push(word_at(Keyword::Always, at))?;
    tokens.push(sign_at(Symbol::At, at))?;
    tokens.push(sign_at(Symbol::Star, at))?;
    tokens.push(word_at(Keyword::Assume, at))?;
    tokens.push(sign_at(Symbol::OpenParen, at))?;
    Ok(())
}

/// `);` behind what is there.
fn push_end(tokens: &mut Vec<Token>, at: Pos) -> Result<(), Memory>
    ensures { OnOk result (tokens.new.items ≡ tokens.old.items ++ spec.end_at at) }
{
    tokens.push(sign_at(Symbol::CloseParen, at))?;
    tokens.push(sign_at(Symbol::Semicolon, at))?;
    Ok(())
}

/// From the line of the first assumption to that of the last one.
fn section_of(assumptions: &[Assumption<'_>]) -> Option<Section>
    ensures { result ≡ spec.section_of (lines_seen assumptions.now) }
{
    match (assumptions.first(), assumptions.last()) {
        (Some(first), Some(last)) => Some(Section {
            first: first.line,
            last: last.line,
        }),
        _ => None,
    }
}

/// Tokens, those of assumptions by themselves.
#[derive(Drop)]
pub(crate) struct Sorted {
    pub assumed: List<Token>,
    pub others: List<Token>,
}

impl Sorted {
    /// One more token, behind the others of its kind.
    fn add(&mut self, section: Section, token: Token) -> Result<(), Memory>
        ensures { OnOk result (self.new ≡ with_token section self.old token) }
    {
        if section.has(token.pos) {
            self.assumed.push(token)
        } else {
            self.others.push(token)
        }
    }
}

#[tactic(auto, using(crate::proofs::Sorting::sorted_more))]
fn sort_out(alloc: Global, section: Section, tokens: Vec<Token>) -> Result<Sorted, Memory>
    ensures { IfOk result (λ all. all ≡ sorted section tokens.items) }
{
    let mut all = Sorted {
        assumed: List::new(alloc),
        others: List::new(alloc),
    };
    for token in tokens {
        all.add(section, token)?;
    }
    Ok(all)
}

impl Assumption<'_> {
    fn start(self) -> Pos
        ensures { result ≡ spec.line_start (line_seen self.entry) }
    {
        Pos {
            file: 0,
            line: self.line,
            col: 1,
        }
    }

    fn has(self, token: &Token) -> bool
        ensures { result ≡ spec.is_on (line_seen self.entry) token.now }
    {
        token.pos.file == 0 && token.pos.line == self.line
    }

    /// How many of the tokens stand on the line, up to the first that doesn't.
    fn count(self, tokens: &[Token]) -> usize
        ensures many { result ≡ spec.many_on (line_seen self.entry) tokens.now }
        ensures within { result ≤ length tokens.now }
    {
        tokens.iter().take_while(|token| self.has(token)).count()
    }
}

/// Copies of the tokens behind what is there.
fn push_copies(alloc: Global, all: &mut Vec<Token>, tokens: &[Token]) -> Result<(), Memory>
    ensures { OnOk result (all.new.items ≡ all.old.items ++ tokens.now) }
{
    for token in tokens {
        all.push(token.copied(alloc)?)?;
    }
    Ok(())
}

/// An item of the tokens behind what is there.
fn push_item(alloc: Global, all: &mut Vec<Token>, at: Pos, tokens: &[Token]) -> Result<(), Memory>
    ensures { OnOk result (all.new.items ≡ all.old.items ++ spec.item at tokens.now) }
{
    push_front(all, at)?;
    push_copies(alloc, all, tokens)?;
    push_end(all, at)
}

/// Each line as an item of those of the tokens that stand on it.
fn items(
    alloc: Global,
    assumptions: &[Assumption<'_>],
    tokens: &[Token],
) -> Result<Vec<Token>, Memory>
    ensures { IfOk result (λ all. all.items ≡ spec.items (lines_seen assumptions.now) tokens.now) }
{
    let mut all = Vec::new(alloc);
    let mut left = tokens;
    for assumption in assumptions {
        let (line, behind) = left.split_at(assumption.count(left));
        push_item(alloc, &mut all, assumption.start(), line)?;
        left = behind;
    }
    Ok(all)
}

/// The items behind so many of the tokens.
fn put_behind(before: usize, items: Vec<Token>, tokens: Vec<Token>) -> Result<Vec<Token>, Memory>
    requires { before ≤ length tokens.items }
    ensures { IfOk result (λ all. all.items ≡ take before tokens.items
        ++ (items.items ++ drop before tokens.items)) }
{
    let mut items = items;
    let mut all = tokens;
    let mut behind = all.split_off(before)?;
    all.append(&mut items)?;
    all.append(&mut behind)?;
    Ok(all)
}

/// The items in front of the end of the top module.
fn put_in_top(items: Vec<Token>, tokens: Vec<Token>) -> Result<Vec<Token>, Memory>
    ensures { IfOk result (λ all. all.items ≡ spec.put_in_top items.items tokens.items) }
{
    match end_of_top(tokens.as_slice()) {
        Some(before) => put_behind(before, items, tokens),
        None => Ok(tokens),
    }
}

/// What is parsed of preprocessed tokens: the items of assumptions stand in front of the end of the top module, and are
/// dropped where it has none.
pub(crate) fn with_assumptions(
    alloc: Global,
    assumptions: &[Assumption<'_>],
    tokens: Vec<Token>,
) -> Result<Vec<Token>, Memory>
    ensures { IfOk result (λ all. all.items ≡ spec.with_assumptions (lines_seen assumptions.now) tokens.items) }
{
    match section_of(assumptions) {
        Some(section) => {
            let Sorted { assumed, others } = sort_out(alloc, section, tokens)?;
            let items = items(alloc, assumptions, assumed.as_slice())?;
            put_in_top(items, others.into_vec())
        }
        None => Ok(tokens),
    }
}
