ghost use Rattle.std.specs.Prelude.{◌≡◌, ◌↔◌, IsTrue};
ghost use Rattle.fv_text.specs.Symbol.{symbol_text};

/// An operator or a sign of punctuation (IEEE 1364-2005, clauses 3 and 5), named by how it looks. `StarStar` and
/// `MinusColon` are outside of this project's subset.
#[derive(Debug, Clone, Copy, PartialEq, Eq)]
pub enum Symbol {
    OpenParen,
    CloseParen,
    OpenBracket,
    CloseBracket,
    OpenBrace,
    CloseBrace,
    OpenAttribute,
    CloseAttribute,
    Semicolon,
    Colon,
    Comma,
    Dot,
    Hash,
    At,
    Equal,
    Question,
    Plus,
    Minus,
    Star,
    Slash,
    Percent,
    StarStar,
    Bang,
    Tilde,
    And,
    Or,
    Caret,
    TildeAnd,
    TildeOr,
    TildeCaret,
    CaretTilde,
    AndAnd,
    OrOr,
    Less,
    LessEqual,
    Greater,
    GreaterEqual,
    EqualEqual,
    BangEqual,
    EqualEqualEqual,
    BangEqualEqual,
    LessLess,
    GreaterGreater,
    LessLessLess,
    GreaterGreaterGreater,
    PlusColon,
    MinusColon,
}

impl Symbol {
    #[tactic(auto, unfolding(crate::specs::Symbol::symbol_text))]
    pub fn text(self) -> &'static [u8]
        ensures { result.now ≡ symbol_text self }
    {
        match self {
            Symbol::OpenParen => b"(",
            Symbol::CloseParen => b")",
            Symbol::OpenBracket => b"[",
            Symbol::CloseBracket => b"]",
            Symbol::OpenBrace => b"{",
            Symbol::CloseBrace => b"}",
            Symbol::OpenAttribute => b"(*",
            Symbol::CloseAttribute => b"*)",
            Symbol::Semicolon => b";",
            Symbol::Colon => b":",
            Symbol::Comma => b",",
            Symbol::Dot => b".",
            Symbol::Hash => b"#",
            Symbol::At => b"@",
            Symbol::Equal => b"=",
            Symbol::Question => b"?",
            Symbol::Plus => b"+",
            Symbol::Minus => b"-",
            Symbol::Star => b"*",
            Symbol::Slash => b"/",
            Symbol::Percent => b"%",
            Symbol::StarStar => b"**",
            Symbol::Bang => b"!",
            Symbol::Tilde => b"~",
            Symbol::And => b"&",
            Symbol::Or => b"|",
            Symbol::Caret => b"^",
            Symbol::TildeAnd => b"~&",
            Symbol::TildeOr => b"~|",
            Symbol::TildeCaret => b"~^",
            Symbol::CaretTilde => b"^~",
            Symbol::AndAnd => b"&&",
            Symbol::OrOr => b"||",
            Symbol::Less => b"<",
            Symbol::LessEqual => b"<=",
            Symbol::Greater => b">",
            Symbol::GreaterEqual => b">=",
            Symbol::EqualEqual => b"==",
            Symbol::BangEqual => b"!=",
            Symbol::EqualEqualEqual => b"===",
            Symbol::BangEqualEqual => b"!==",
            Symbol::LessLess => b"<<",
            Symbol::GreaterGreater => b">>",
            Symbol::LessLessLess => b"<<<",
            Symbol::GreaterGreaterGreater => b">>>",
            Symbol::PlusColon => b"+:",
            Symbol::MinusColon => b"-:",
        }
    }

    pub fn is(self, other: Symbol) -> bool
        ensures { IsTrue result ↔ (self ≡ other) }
    {
        self == other
    }
}
