ghost use Rattle.std.specs.Prelude.{◌≡◌, find, nat_eq};
ghost use Rattle.std.specs.List.{starts_with};
ghost use Rattle.fv_text.specs.Symbol.{symbol_text};
ghost use Rattle.vl_token.specs.Cut.{sign_at};

use fv_text::Symbol;

/// Longer signs stand before shorter ones.
const SIGNS: [Symbol; 47] = [
    Symbol::EqualEqualEqual,
    Symbol::BangEqualEqual,
    Symbol::LessLessLess,
    Symbol::GreaterGreaterGreater,
    Symbol::OpenAttribute,
    Symbol::CloseAttribute,
    Symbol::StarStar,
    Symbol::TildeAnd,
    Symbol::TildeOr,
    Symbol::TildeCaret,
    Symbol::CaretTilde,
    Symbol::AndAnd,
    Symbol::OrOr,
    Symbol::LessEqual,
    Symbol::GreaterEqual,
    Symbol::EqualEqual,
    Symbol::BangEqual,
    Symbol::LessLess,
    Symbol::GreaterGreater,
    Symbol::PlusColon,
    Symbol::MinusColon,
    Symbol::OpenParen,
    Symbol::CloseParen,
    Symbol::OpenBracket,
    Symbol::CloseBracket,
    Symbol::OpenBrace,
    Symbol::CloseBrace,
    Symbol::Semicolon,
    Symbol::Colon,
    Symbol::Comma,
    Symbol::Dot,
    Symbol::Hash,
    Symbol::At,
    Symbol::Equal,
    Symbol::Question,
    Symbol::Plus,
    Symbol::Minus,
    Symbol::Star,
    Symbol::Slash,
    Symbol::Percent,
    Symbol::Bang,
    Symbol::Tilde,
    Symbol::And,
    Symbol::Or,
    Symbol::Caret,
    Symbol::Less,
    Symbol::Greater,
];

/// The longest sign that begins the text.
#[tactic(auto, unfolding(crate::specs::Cut::sign_at))]
pub(crate) fn sign_at(bytes: &[u8]) -> Option<Symbol>
    ensures { result ≡ sign_at bytes.now }
{
    sign_among(&SIGNS, bytes)
}

fn sign_among(signs: &[Symbol], bytes: &[u8]) -> Option<Symbol>
    ensures { result ≡ find (λ t. starts_with nat_eq bytes.now (symbol_text t)) signs.now }
{
    signs
        .iter()
        .copied()
        .find(|sign| bytes.starts_with(sign.text()))
}
