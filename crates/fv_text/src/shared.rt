//! That the public types may be shared among threads.

use crate::keyword::Keyword;
use crate::kind::Kind;
use crate::list::List;
use crate::memory::Memory;
use crate::number::Number;
use crate::pos::Pos;
use crate::symbol::Symbol;
use crate::text::Text;
use crate::token::Token;
use crate::trace::{Trace, TraceName};
use crate::word::Word;

fn is_shared<T: Send + Sync>(_value: &T) {}

/// Texts may be shared, lists of what may be shared, and the fault.
pub(crate) fn values_are_shared<T: Send + Sync>(text: &Text, list: &List<T>, memory: &Memory) {
    is_shared(text);
    is_shared(list);
    is_shared(memory);
}

pub(crate) fn tokens_are_shared(token: &Token, word: &Word, keyword: &Keyword, symbol: &Symbol) {
    is_shared(token);
    is_shared(&token.kind);
    is_shared(&token.pos);
    is_shared(word);
    is_shared(keyword);
    is_shared(symbol);
}

pub(crate) fn numbers_are_shared(number: &Number, kind: &Kind, pos: &Pos) {
    is_shared(number);
    is_shared(kind);
    is_shared(pos);
}

pub(crate) fn traces_are_shared(name: &TraceName, trace: &Trace) {
    is_shared(name);
    is_shared(trace);
}
