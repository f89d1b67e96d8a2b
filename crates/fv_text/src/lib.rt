//! Texts and lists that contracts see as lists, numbers, places, tokens and traces: what every other crate stands on.
#![tactic(auto)]

mod held;
mod keyword;
mod kind;
mod list;
mod memory;
mod number;
mod pos;
mod shared;
mod symbol;
mod text;
mod token;
mod trace;
mod word;

pub use keyword::Keyword;
pub use kind::Kind;
pub use list::List;
pub use memory::Memory;
pub use number::Number;
pub use pos::Pos;
pub use symbol::Symbol;
pub use text::Text;
pub use token::Token;
pub use trace::{Trace, TraceName};
pub use word::Word;
