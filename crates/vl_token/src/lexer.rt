ghost use Rattle.std.specs.Prelude.{
  ◌≡◌,
  ◌&&◌,
  nat_le,
  ◌-◌,
  ◌≤◌,
  true,
  List,
  [],
  length,
  take,
  IfOk,
  IfErr,
};
ghost use Rattle.std.specs.Prelude.{MatchResult};
ghost use Rattle.std.specs.List.{prefix_len};
ghost use Rattle.fv_text.specs.Named.{is_well_named};
ghost use Rattle.fv_text.specs.declared.token.Token.{Token};
ghost use Rattle.vl_token.specs.declared.fault.LexFault.{LexFault};
ghost use Rattle.vl_token.specs.Fault.{OnNotMemory, is_of_text, Refuses, IsAnswered};
ghost use Rattle.vl_token.specs.Place as place;
ghost use Rattle.vl_token.specs.Steps.{IsFront, Added, IsAddFault, IsStep, HasRead, HasStopped};
ghost use Rattle.vl_token.specs.Tokens.{AreTokens, is_ascii};
ghost use Rattle.vl_token.specs.Views.{view_piece};

use crate::fault::LexFault;
use crate::meaning::{Meaning, meaning_of};
use crate::piece::{Cut, Piece, first_cut};
use crate::place::place_after;
use fv_text::{Kind, List, Pos, Token};
use std::alloc::Global;

const MOST_TOKENS: usize = 2_000_000;

/// The tokens of a Verilog text (IEEE 1364-2005, clause 3), whose first line has the number `line` of the file
/// `file`. Blanks and comments are dropped.
pub fn lex(alloc: Global, bytes: &[u8], file: u32, line: u32) -> Result<Vec<Token>, LexFault>
    ensures found { IfOk result (λ ts. AreTokens file line bytes.now ts.items) }
    ensures one { IfOk result (λ ts. (us : List Token) → AreTokens file line bytes.now us → us ≡ ts.items) }
    ensures none { IfErr result (λ e. OnNotMemory e ((us : List Token) → AreTokens file line bytes.now us → ⊥)) }
    // Each refusal comes exactly where its fault is there and comes first, but for want of memory.
    ensures refused { IfErr result (λ e. OnNotMemory e (Refuses e file line bytes.now)) }
    ensures answered { (f : LexFault) → Refuses f file line bytes.now → IsAnswered f result }
{
    read(alloc, bytes, file, line)
}

fn read(alloc: Global, bytes: &[u8], file: u32, line: u32) -> Result<Vec<Token>, LexFault>
    ensures found { IfOk result (λ ts. AreTokens file line bytes.now ts.items) }
    ensures refused { IfErr result (λ e. OnNotMemory e (Refuses e file line bytes.now)) }
{
    let start = Pos { file, line, col: 1 };
    let ascii = ascii_length(bytes);
    match scan(alloc, bytes, start) {
        Ok(tokens) => {
            if ascii < bytes.len() {
                return Err(LexFault::NotAscii(place_after(start, &bytes[..ascii])));
            }
            Ok(tokens.into_vec())
        }
        Err(stop) => {
            if stop.is_behind(ascii) {
                return Err(LexFault::NotAscii(place_after(start, &bytes[..ascii])));
            }
            Err(stop.fault)
        }
    }
}

/// How many bytes up to the first one above 127.
fn ascii_length(bytes: &[u8]) -> usize
    ensures { result ≡ prefix_len is_ascii bytes.now }
{
    bytes.iter().take_while(|byte| **byte < 128).count()
}

/// A fault, and how many bytes stand before it.
#[derive(Debug, Clone, Copy)]
pub(crate) struct Stop {
    pub fault: LexFault,
    pub front: usize,
}

impl Stop {
    /// Whether a byte at this index comes first. Want of memory is no fault of the text.
    fn is_behind(self, index: usize) -> bool
        ensures { result ≡ (is_of_text self.fault && nat_le index self.front) }
    {
        !matches!(self.fault, LexFault::Memory) && index <= self.front
    }
}

/// What reading one piece comes to.
#[derive(Debug, Clone, Copy)]
pub(crate) enum Step<'a> {
    End,
    /// What stands behind the piece, and its place.
    On(&'a [u8], Pos),
    Stop(LexFault),
}

/// The tokens up to the end, without regard to bytes above 127 in comments and strings.
fn scan(alloc: Global, bytes: &[u8], start: Pos) -> Result<List<Token>, Stop>
    ensures found { IfOk result (λ ts. (pos : Pos) × HasRead bytes.now start [] pos ts) }
    ensures stopped { IfErr result (λ s. OnNotMemory s.fault (HasStopped s.fault s.front bytes.now start)) }
{
    let mut tokens = List::new(alloc);
    let mut rest = bytes;
    let mut pos = start;
    loop {
        match next_piece(alloc, &mut tokens, rest, pos) {
            Step::End => return Ok(tokens),
            Step::On(behind, next) => {
                rest = behind;
                pos = next;
            }
            Step::Stop(fault) => {
                let front = bytes.len() - rest.len();
                return Err(Stop { fault, front });
            }
        }
    }
}

fn next_piece<'a>(alloc: Global, tokens: &mut List<Token>, rest: &'a [u8], pos: Pos) -> Step<'a>
    ensures { IsStep result rest.entry.now pos tokens.old tokens.new }
{
    match first_cut(rest) {
        Cut::Ended => Step::End,
        Cut::OpenComment => Step::Stop(LexFault::OpenComment(pos)),
        Cut::OpenString => Step::Stop(LexFault::OpenString(pos)),
        Cut::BadChar => Step::Stop(LexFault::BadChar(pos)),
        Cut::Piece(piece, behind) => take_piece(alloc, tokens, &piece, rest, behind, pos),
    }
}

fn take_piece<'a>(
    alloc: Global,
    tokens: &mut List<Token>,
    piece: &Piece,
    rest: &[u8],
    behind: &'a [u8],
    pos: Pos,
) -> Step<'a>
    requires { IsFront rest.now (view_piece piece.now) behind.now }
    ensures { IsStep result rest.now pos tokens.old tokens.new }
{
    match meaning_of(alloc, piece) {
        Ok(Meaning::Gap) => Step::On(behind, place_moved(pos, rest, behind)),
        Ok(Meaning::Token(kind)) => match add_token(tokens, kind, pos) {
            Ok(()) => Step::On(behind, place_moved(pos, rest, behind)),
            Err(fault) => Step::Stop(fault),
        },
        Ok(Meaning::BadNumber) => Step::Stop(LexFault::BadNumber(pos)),
        Err(_) => Step::Stop(LexFault::Memory),
    }
}

fn add_token(tokens: &mut List<Token>, kind: Kind, pos: Pos) -> Result<(), LexFault>
    requires { is_well_named kind ≡ true }
    ensures { MatchResult result (λ _. Added kind pos tokens.old tokens.new)
        (λ e. IsAddFault e pos (length tokens.old)) }
{
    if tokens.len() >= MOST_TOKENS {
        return Err(LexFault::TooManyTokens(pos));
    }
    match tokens.push(Token { kind, pos }) {
        Ok(()) => Ok(()),
        Err(_) => Err(LexFault::Memory),
    }
}

/// The place of what stands behind a piece.
fn place_moved(pos: Pos, rest: &[u8], behind: &[u8]) -> Pos
    requires { length behind.now ≤ length rest.now }
    ensures { result ≡ place.place_after pos (take (length rest.now - length behind.now) rest.now) }
{
    place_after(pos, &rest[..rest.len() - behind.len()])
}
