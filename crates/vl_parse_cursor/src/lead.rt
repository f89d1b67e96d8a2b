//! What a token begins or joins in an expression.

ghost use Rattle.std.specs.Prelude.{◌≡◌};
ghost use Rattle.vl_tree.specs.ExprWellFormed as formed;
ghost use Rattle.vl_parse_grammar.specs.Operators as operators;
ghost use Rattle.vl_parse_grammar.specs.Grammar as grammar;
ghost use Rattle.vl_parse_cursor.specs.Lead as spec;

use fv_text::{Kind, Number, Symbol, Text};
use vl_tree::{BinaryOperator, Cast, UnaryOperator};

/// What a token begins as the first of an operand.
#[derive(Debug, Clone, Copy)]
pub enum Lead {
    Number(Number),
    Name,
    Paren,
    Brace,
    Unary(UnaryOperator),
    Cast(Cast),
    Nothing,
}

pub fn lead_of(kind: &Kind) -> Lead
    ensures { result ≡ spec.lead_of kind.now }
{
    match kind {
        Kind::Number(number) => {
            if is_known(number) {
                Lead::Number(*number)
            } else {
                Lead::Nothing
            }
        }
        Kind::Name(_) => Lead::Name,
        Kind::Symbol(symbol) => lead_of_sign(*symbol),
        Kind::System(text) => match cast_of(text) {
            Some(cast) => Lead::Cast(cast),
            None => Lead::Nothing,
        },
        _ => Lead::Nothing,
    }
}

/// Whether no bit is wild or unknown.
pub fn is_known(number: &Number) -> bool
    ensures { result ≡ grammar.is_known number.now }
{
    number.wild == 0 && number.unknown == 0
}

fn lead_of_sign(symbol: Symbol) -> Lead
    ensures { result ≡ spec.lead_of_sign symbol }
{
    match symbol {
        Symbol::OpenParen => Lead::Paren,
        Symbol::OpenBrace => Lead::Brace,
        _ => match unary_of(symbol) {
            Some(operator) => Lead::Unary(operator),
            None => Lead::Nothing,
        },
    }
}

pub fn cast_of(text: &Text) -> Option<Cast>
    ensures { result ≡ operators.cast_of text.now }
{
    if text.is(b"signed") {
        Some(Cast::Signed)
    } else if text.is(b"unsigned") {
        Some(Cast::Unsigned)
    } else {
        None
    }
}

/// The operator before one operand that the sign is.
fn unary_of(symbol: Symbol) -> Option<UnaryOperator>
    ensures { result ≡ operators.unary_of symbol }
{
    match symbol {
        Symbol::Plus => Some(UnaryOperator::Plus),
        Symbol::Minus => Some(UnaryOperator::Minus),
        Symbol::Bang => Some(UnaryOperator::LogicalNot),
        Symbol::Tilde => Some(UnaryOperator::BitwiseNot),
        Symbol::And => Some(UnaryOperator::ReductionAnd),
        Symbol::TildeAnd => Some(UnaryOperator::ReductionNand),
        Symbol::Or => Some(UnaryOperator::ReductionOr),
        Symbol::TildeOr => Some(UnaryOperator::ReductionNor),
        Symbol::Caret => Some(UnaryOperator::ReductionXor),
        Symbol::TildeCaret => Some(UnaryOperator::ReductionXnor),
        Symbol::CaretTilde => Some(UnaryOperator::ReductionXnorCaretFirst),
        _ => None,
    }
}

/// The operator between two operands that the sign is.
fn binary_of(symbol: Symbol) -> Option<BinaryOperator>
    ensures { result ≡ operators.binary_of symbol }
{
    match symbol {
        Symbol::Star => Some(BinaryOperator::Multiply),
        Symbol::Slash => Some(BinaryOperator::Divide),
        Symbol::Percent => Some(BinaryOperator::Remainder),
        Symbol::Plus => Some(BinaryOperator::Add),
        Symbol::Minus => Some(BinaryOperator::Subtract),
        Symbol::LessLess => Some(BinaryOperator::ShiftLeft),
        Symbol::GreaterGreater => Some(BinaryOperator::ShiftRight),
        Symbol::LessLessLess => Some(BinaryOperator::ArithmeticShiftLeft),
        Symbol::GreaterGreaterGreater => Some(BinaryOperator::ArithmeticShiftRight),
        Symbol::Less => Some(BinaryOperator::Less),
        Symbol::LessEqual => Some(BinaryOperator::LessEqual),
        Symbol::Greater => Some(BinaryOperator::Greater),
        Symbol::GreaterEqual => Some(BinaryOperator::GreaterEqual),
        Symbol::EqualEqual => Some(BinaryOperator::Equal),
        Symbol::BangEqual => Some(BinaryOperator::NotEqual),
        Symbol::EqualEqualEqual => Some(BinaryOperator::CaseEqual),
        Symbol::BangEqualEqual => Some(BinaryOperator::CaseNotEqual),
        Symbol::And => Some(BinaryOperator::BitwiseAnd),
        Symbol::Caret => Some(BinaryOperator::BitwiseXor),
        Symbol::TildeCaret => Some(BinaryOperator::BitwiseXnor),
        Symbol::CaretTilde => Some(BinaryOperator::BitwiseXnorCaretFirst),
        Symbol::Or => Some(BinaryOperator::BitwiseOr),
        Symbol::AndAnd => Some(BinaryOperator::LogicalAnd),
        Symbol::OrOr => Some(BinaryOperator::LogicalOr),
        _ => None,
    }
}

/// How strongly an operator binds its operands (IEEE 1364-2005, table 5-4): 1 the least, 10 the most.
pub fn binds(operator: BinaryOperator) -> u32
    ensures { result ≡ formed.binds operator }
{
    match operator {
        BinaryOperator::LogicalOr => 1,
        BinaryOperator::LogicalAnd => 2,
        BinaryOperator::BitwiseOr => 3,
        BinaryOperator::BitwiseXor
        | BinaryOperator::BitwiseXnor
        | BinaryOperator::BitwiseXnorCaretFirst => 4,
        BinaryOperator::BitwiseAnd => 5,
        BinaryOperator::Equal
        | BinaryOperator::NotEqual
        | BinaryOperator::CaseEqual
        | BinaryOperator::CaseNotEqual => 6,
        BinaryOperator::Less
        | BinaryOperator::LessEqual
        | BinaryOperator::Greater
        | BinaryOperator::GreaterEqual => 7,
        BinaryOperator::ShiftLeft
        | BinaryOperator::ShiftRight
        | BinaryOperator::ArithmeticShiftLeft
        | BinaryOperator::ArithmeticShiftRight => 8,
        BinaryOperator::Add | BinaryOperator::Subtract => 9,
        BinaryOperator::Multiply | BinaryOperator::Divide | BinaryOperator::Remainder => 10,
    }
}

/// What a token joins to the operand before it.
#[derive(Debug, Clone, Copy)]
pub enum Joint {
    Binary(BinaryOperator),
    Question,
    Nothing,
}

pub fn joint_of(kind: &Kind) -> Joint
    ensures { result ≡ spec.joint_of kind.now }
{
    match kind {
        Kind::Symbol(symbol) => joint_of_sign(*symbol),
        _ => Joint::Nothing,
    }
}

fn joint_of_sign(symbol: Symbol) -> Joint
    ensures { result ≡ spec.joint_of_sign symbol }
{
    match symbol {
        Symbol::Question => Joint::Question,
        _ => match binary_of(symbol) {
            Some(operator) => Joint::Binary(operator),
            None => Joint::Nothing,
        },
    }
}
