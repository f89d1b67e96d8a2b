//! The end of the top module, in which assumptions stand.

ghost use Rattle.std.specs.Prelude.{◌≡◌, ◌≤◌, length, drop, IfSome};
ghost use Rattle.vl_text.specs.Assumptions as spec;

use fv_text::{Keyword, Kind, Token};

/// How many tokens stand in front of the first `endmodule` behind the first `module rvfi_wrapper`. None where there
/// is none.
#[tactic(auto, using(crate::proofs::Counting::ends))]
pub(crate) fn end_of_top(tokens: &[Token]) -> Option<usize>
    ensures end { result ≡ spec.end_of_top 0 tokens.now }
    ensures within { IfSome result (λ before. before ≤ length tokens.now) }
{
    for (index, token) in tokens.iter().enumerate() {
        if begins_top(token, &tokens[index + 1..]) {
            return first_end(tokens, index + 1);
        }
    }
    None
}

/// How many tokens stand in front of the first `endmodule` from a place on.
#[tactic(auto, using(crate::proofs::Counting::ends))]
fn first_end(tokens: &[Token], from: usize) -> Option<usize>
    requires { from ≤ length tokens.now }
    ensures end { result ≡ spec.first_end from (drop from tokens.now) }
    ensures within { IfSome result (λ before. before ≤ length tokens.now) }
{
    for index in from..tokens.len() {
        if is_endmodule(&tokens[index].kind) {
            return Some(index);
        }
    }
    None
}

/// Whether the top module begins with the token.
fn begins_top(token: &Token, behind: &[Token]) -> bool
    ensures { result ≡ spec.begins_top token.now behind.now }
{
    is_module(&token.kind) && is_top(behind)
}

/// Whether the name of the top module comes next.
fn is_top(tokens: &[Token]) -> bool
    ensures { result ≡ spec.is_top tokens.now }
{
    match tokens.split_first() {
        Some((token, _)) => is_top_name(&token.kind),
        None => false,
    }
}

fn is_top_name(kind: &Kind) -> bool
    ensures { result ≡ spec.is_top_name kind.now }
{
    match kind {
        Kind::Name(text) => text.bytes() == b"rvfi_wrapper".as_slice(),
        _ => false,
    }
}

fn is_module(kind: &Kind) -> bool
    ensures { result ≡ spec.is_module kind.now }
{
    matches!(kind, Kind::Keyword(Keyword::Module))
}

fn is_endmodule(kind: &Kind) -> bool
    ensures { result ≡ spec.is_endmodule kind.now }
{
    matches!(kind, Kind::Keyword(Keyword::Endmodule))
}
