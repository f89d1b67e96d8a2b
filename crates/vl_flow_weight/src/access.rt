ghost use Rattle.std.specs.Prelude.{◌≡◌, ◌*◌, List, Option, Some, None};
ghost use Rattle.vl_mean.specs.ConstantFaults.{capped};
ghost use Rattle.vl_flow_spec.specs.Weight as spec;
ghost use Rattle.vl_size.specs.Table.{declared_as, span};
ghost use Rattle.vl_size.specs.declared.decl.Decl.{Decl};
ghost use Rattle.vl_tree.specs.ExprView.{selects};

use fv_text::Text;
use vl_flow_cells::are_fixed;
use vl_mean::widths::plus;
use vl_size::{Decl, Decls};
use vl_tree::Select;

/// How many words lie from one bound to the other.
fn words_between(left: i64, right: i64) -> u128
    ensures { result ≡ span left right }
{
    (i128::from(left) - i128::from(right)).unsigned_abs() + 1
}

/// A memory counts with all its words.
fn word_count(words: Option<(i64, i64)>) -> u128
    ensures { result ≡ spec.word_count words }
{
    match words {
        None => 1,
        Some((left, right)) => words_between(left, right),
    }
}

/// The bits of so many words.
fn bit_count(words: u128, width: u32) -> u64
    ensures { result ≡ capped (words * width) }
{
    words
        .saturating_mul(u128::from(width))
        .min(u128::from(u64::MAX)) as u64
}

/// What selects of a vector take: none, where they are constant.
#[tactic(auto, using(crate::proofs::Accesses::of_selects))]
fn select_weight(all: &[Select], width: u32) -> u64
    ensures { (ds : List Decl) → result ≡ capped (spec.select_weight ds width (selects all.now)) }
{
    if are_fixed(all) {
        return 0;
    }
    u64::from(width)
}

/// What selects behind a memory's index take.
#[tactic(auto, using(crate::proofs::Accesses::behind_words))]
fn behind_word(all: &[Select], width: u32) -> u64
    ensures { (ds : List Decl)
        → result ≡ capped (spec.select_weight ds width (spec.behind_word (selects all.now))) }
{
    if all.len() == 0 {
        return 0;
    }
    select_weight(&all[1..], width)
}

/// What a read or a write of a declared name takes.
fn declared_access(all: &[Select], decl: &Decl) -> u64
    ensures { (ds : List Decl) → result ≡ capped (spec.access_weight ds (Some decl.now) (selects all.now)) }
{
    if decl.words.is_none() {
        return select_weight(all, decl.width);
    }
    let words = bit_count(word_count(decl.words), decl.width);
    plus(words, behind_word(all, decl.width))
}

/// What a read or a write of a name takes: none, where it selects constant bits of a vector.
pub(crate) fn access_weight(text: &Text, all: &[Select], decls: &Decls) -> u64
    ensures { result ≡ capped (spec.access_weight decls.now (declared_as decls.now text.now) (selects all.now)) }
{
    match decls.named(text) {
        None => 0,
        Some(decl) => declared_access(all, decl),
    }
}
