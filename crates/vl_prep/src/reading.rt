//! What is begun where a text is being read.

ghost use Rattle.std.specs.Prelude.{◌≡◌, IfOk};
ghost use Rattle.vl_prep.specs.Lines as lines;
ghost use Rattle.vl_prep.specs.Prep.{body_with};

use crate::directive::Directive;
use fv_text::{Kind, List, Memory, Pos, Symbol, Text, Token};
use std::alloc::Global;

#[derive(Drop)]
pub(crate) enum Reading {
    /// Nothing.
    Plain,
    /// A directive, whose name is to come on its line.
    Named(Directive, Pos),
    /// The text of a macro.
    Body(Body),
    /// A line, of which nothing more counts.
    Dropped(Pos),
}

/// A macro's text, as far as it was read.
#[derive(Drop)]
pub(crate) struct Body {
    pub name: Text,
    /// The place of the name.
    pub pos: Pos,
    /// The line that is read now.
    pub line: u32,
    pub tokens: List<Token>,
}

/// Whether both places are on one line.
pub(crate) fn on_line(pos: Pos, other: Pos) -> bool
    ensures { result ≡ lines.on_line pos other }
{
    pos.file == other.file && pos.line == other.line
}

/// The number of the line behind this one.
fn line_behind(line: u32) -> u32
    ensures { result ≡ lines.line_behind line }
{
    line.saturating_add(1)
}

impl Body {
    /// The text with one more token of its line. A backslash at the line's end joins the next line.
    pub(crate) fn with(self, alloc: Global, token: &Token) -> Result<Body, Memory>
        ensures { IfOk result (λ body. body ≡ body_with self token.now token.now.kind) }
    {
        let mut body = self;
        match &token.kind {
            Kind::Continue => body.line = line_behind(body.line),
            _ => body.tokens.push(token.copied(alloc)?)?,
        }
        Ok(body)
    }

    /// Whether the place is on the line that is read now.
    pub(crate) fn goes_on(&self, pos: Pos) -> bool
        ensures { result ≡ lines.goes_on self.now pos }
    {
        pos.file == self.pos.file && pos.line == self.line
    }

    /// Whether the token is a bracket directly behind the name.
    pub(crate) fn has_bracket(&self, token: &Token) -> bool
        ensures { result ≡ lines.has_bracket self.now token.now }
    {
        is_bracket(&token.kind)
            && on_line(self.pos, token.pos)
            && token.pos.col as usize == (self.pos.col as usize).saturating_add(self.name.len())
    }
}

fn is_bracket(kind: &Kind) -> bool
    ensures { result ≡ lines.is_bracket kind.now }
{
    matches!(
        kind,
        Kind::Symbol(Symbol::OpenParen | Symbol::OpenAttribute)
    )
}
