//! Lists with commas between their elements.

ghost use Rattle.std.specs.Prelude.{◌≡◌, ◌<◌, Ok, List, length, IfOk};
ghost use Rattle.fv_text.specs.declared.token.Token.{Token};
ghost use Rattle.vl_tree.specs.DeclarationWellFormed.{AreSome};
ghost use Rattle.vl_tree.specs.Phrase.{Spells, sign, between_commas, ◌▸◌};
ghost use Rattle.vl_parse_grammar.specs.Machine.{then};
ghost use Rattle.vl_parse_grammar.specs.Grammar as grammar;
ghost use Rattle.vl_parse_cursor.specs.Goes.{Goes};
ghost use Rattle.vl_parse_decl.specs.Lists.{BeginsWith};
ghost use Rattle.vl_parse_cursor.specs.Next.{kinds_in};

use fv_text::{List, Symbol, Token};
use std::alloc::Global;
use vl_parse_cursor::{Stop, add, past_sign, read_sign};

/// What such a list has as an element.
pub trait Element: Drop {
    ghost use Rattle.std.specs.Prelude.{◌≡◌, ◌∷◌, ℕ, List};
    ghost use Rattle.fv_text.specs.declared.kind.Kind.{Kind};
    ghost use Rattle.fv_text.specs.declared.kind.Kind.TheVariants as k;
    ghost use Rattle.fv_text.specs.declared.symbol.Symbol as symbol;
    ghost use Rattle.fv_text.specs.declared.symbol.Symbol.TheVariants as s;
    ghost use Rattle.vl_tree.specs.Phrase.{Phrase};
    ghost use Rattle.vl_parse_grammar.specs.Machine as machine;
    ghost use Rattle.vl_parse_grammar.specs.Grammar.{Rule, read, read_all};
    ghost use Rattle.vl_parse_cursor.specs.Next.{IsOther, behind};

    ghost phrase: { Self → Phrase };

    ghost fits: { Self → Type 0 };

    /// What the grammar reads as an element, and as what stands behind one.
    ghost rules: { List Rule };

    ghost tail: { Rule };

    ghost closing: { symbol.Symbol };

    fn read(alloc: Global, room: u32, tokens: &[Token]) -> Result<(Self, &[Token]), Stop>
        ensures found { IfOk result (λ x. Spells (phrase x.0) tokens.now x.1.now) }
        ensures formed { IfOk result (λ x. fits x.0) }
        ensures shorter { IfOk result (λ x. length x.1.now < length tokens.now) }
        ensures goes { Goes (λ x. Ok (kinds_in x.1.now)) result (grammar.read_all rules room (kinds_in tokens.now)) };

    ghost comma: { (n : ℕ) (ts : List Kind) → read tail n (k.Symbol s.Comma ∷ ts)
        ≡ machine.then (read_all rules n ts) (λ r. read tail n r) };

    ghost ending: { (n : ℕ) (ts : List Kind) → IsOther (k.Symbol s.Comma) ts
        → read tail n ts ≡ behind closing ts };
}

/// One element or more, up to the closing sign.
#[tactic(auto, using(crate::proofs::DeclarationRows::basics))]
pub fn read_list<T: Element>(
    alloc: Global,
    room: u32,
    closing: Symbol,
    tokens: &[Token],
) -> Result<(List<T>, &[Token]), Stop>
    requires { closing ≡ T.closing }
    ensures found { IfOk result (λ x. Spells (between_commas T.phrase x.0 ▸ sign closing) tokens.now x.1.now) }
    ensures formed { IfOk result (λ x. AreSome T.fits x.0) }
    ensures shorter { IfOk result (λ x. length x.1.now < length tokens.now) }
    ensures goes { Goes (λ x. Ok (kinds_in x.1.now)) result
        (then (grammar.read_all T.rules room (kinds_in tokens.now)) (λ r. grammar.read T.tail room r)) }
{
    let (first, rest) = T::read(alloc, room, tokens)?;
    read_list_behind(alloc, room, closing, first, rest)
}

/// The elements behind a first one, up to the closing sign.
#[tactic(auto, using(crate::proofs::ListLaws::list_laws, crate::proofs::DeclarationRows::basics))]
pub(crate) fn read_list_behind<T: Element>(
    alloc: Global,
    room: u32,
    closing: Symbol,
    first: T,
    tokens: &[Token],
) -> Result<(List<T>, &[Token]), Stop>
    requires closing { closing ≡ T.closing }
    requires formed { T.fits first }
    ensures first { IfOk result (λ x. BeginsWith first x.0) }
    ensures found { IfOk result (λ x. (start : List Token) → Spells (T.phrase first) start tokens.now
        → Spells (between_commas T.phrase x.0 ▸ sign closing) start x.1.now) }
    ensures formed { IfOk result (λ x. AreSome T.fits x.0) }
    ensures shorter { IfOk result (λ x. length x.1.now < length tokens.now) }
    ensures goes { Goes (λ x. Ok (kinds_in x.1.now)) result (grammar.read T.tail room (kinds_in tokens.now)) }
{
    let mut all = List::new(alloc);
    add(&mut all, first)?;
    let mut rest = tokens;
    while let Some(behind) = past_sign(Symbol::Comma, rest) {
        let (element, behind) = T::read(alloc, room, behind)?;
        add(&mut all, element)?;
        rest = behind;
    }
    let rest = read_sign(closing, rest)?;
    Ok((all, rest))
}
