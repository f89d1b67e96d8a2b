//! The tokens of several texts, laid end to end.

ghost use Rattle.std.specs.Prelude.{◌≡◌, ◌++◌, ◌∷◌, [], true, Ok, Err, IfOk, OnOk};
ghost use Rattle.vl_token.specs.Fault.{is_of_text};
ghost use Rattle.vl_text.specs.Steps.{AddsText, AddsTexts, Lexes};
ghost use Rattle.vl_text.specs.Texts as texts;
ghost use Rattle.vl_text.specs.Texts.{lines_seen, nothing_lexed, text_seen, texts_seen, with_lexing};

use crate::text::{Assumption, SourceText};
use fv_text::{List, Memory, Token};
use std::alloc::Global;
use std::mem;
use vl_prep::is_sooner;
use vl_token::{LexFault, lex};

/// What the lexer makes of texts, one after the other.
#[derive(Drop)]
pub(crate) struct Lexed {
    /// The tokens of those that it accepts.
    pub tokens: List<Token>,
    /// The fault that is answered.
    pub fault: Option<LexFault>,
}

impl Lexed {
    pub(crate) fn new(alloc: Global) -> Lexed
        ensures { result ≡ nothing_lexed }
    {
        Lexed {
            tokens: List::new(alloc),
            fault: None,
        }
    }

    pub(crate) fn add_texts(
        &mut self,
        alloc: Global,
        texts: &[SourceText<'_>],
    ) -> Result<(), Memory>
        ensures { OnOk result (AddsTexts (texts_seen texts.now) self.old self.new) }
    {
        for text in texts {
            self.add_text(alloc, *text)?;
        }
        Ok(())
    }

    /// Adds lines of assumptions.
    pub(crate) fn add_lines(
        &mut self,
        alloc: Global,
        assumptions: &[Assumption<'_>],
    ) -> Result<(), Memory>
        ensures { OnOk result (AddsTexts (lines_seen assumptions.now) self.old self.new) }
    {
        for assumption in assumptions {
            self.add_text(alloc, assumption.text())?;
        }
        Ok(())
    }

    fn add_text(&mut self, alloc: Global, text: SourceText<'_>) -> Result<(), Memory>
        ensures { OnOk result (AddsText (text_seen text.entry) self.old self.new) }
    {
        match lex_text(alloc, text) {
            Ok(tokens) => self.add_tokens(alloc, tokens),
            Err(fault) => self.add_fault(fault),
        }
    }

    fn add_tokens(&mut self, alloc: Global, tokens: Vec<Token>) -> Result<(), Memory>
        ensures { OnOk result (self.new ≡ with_lexing self.old (Ok tokens.items)) }
    {
        let mut more = tokens;
        let mut all = mem::replace(&mut self.tokens, List::new(alloc)).into_vec();
        all.append(&mut more)?;
        self.tokens = List::from_vec(all);
        Ok(())
    }

    /// Want of memory is no fault of a text.
    fn add_fault(&mut self, fault: LexFault) -> Result<(), Memory>
        ensures added { OnOk result (self.new ≡ with_lexing self.old (Err fault)) }
        ensures of_text { OnOk result (is_of_text fault ≡ true) }
    {
        if matches!(fault, LexFault::Memory) {
            return Err(Memory);
        }
        self.fault = Some(least(self.fault, fault));
        Ok(())
    }
}

/// The tokens of a text by itself.
fn lex_text(alloc: Global, text: SourceText<'_>) -> Result<Vec<Token>, LexFault>
    ensures { Lexes (text_seen text.entry) result }
{
    if text.file == 0 {
        lex_line(alloc, text.bytes, text.line)
    } else {
        lex(alloc, text.bytes, text.file, text.line)
    }
}

/// The tokens of a line of the configuration.
fn lex_line(alloc: Global, bytes: &[u8], line: u32) -> Result<Vec<Token>, LexFault>
    ensures { Lexes (record { file = 0; line = line; bytes = bytes.now }) result }
{
    match ended(alloc, bytes) {
        Ok(bytes) => lex(alloc, bytes.as_slice(), 0, line),
        Err(Memory) => Err(LexFault::Memory),
    }
}

/// The line with its end.
fn ended(alloc: Global, bytes: &[u8]) -> Result<Vec<u8>, Memory>
    ensures { IfOk result (λ line. line.items ≡ bytes.now ++ (10 ∷ [])) }
{
    let mut line = Vec::from_slice(alloc, bytes)?;
    line.push(b'\n')?;
    Ok(line)
}

/// Of what is answered so far and one more fault, what is answered.
fn least(so_far: Option<LexFault>, fault: LexFault) -> LexFault
    ensures { result ≡ texts.least so_far fault }
{
    match so_far {
        Some(other) if is_before(fault, other) => fault,
        Some(other) => other,
        None => fault,
    }
}

/// Whether the fault is answered where the other is there too.
fn is_before(fault: LexFault, other: LexFault) -> bool
    ensures { result ≡ texts.is_before fault other }
{
    match (fault.place(), other.place()) {
        (Some(place), Some(before)) => {
            if place == before {
                fault.number() < other.number()
            } else {
                is_sooner(place, before)
            }
        }
        _ => false,
    }
}
