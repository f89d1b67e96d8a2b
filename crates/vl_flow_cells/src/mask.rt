ghost use Rattle.std.specs.Prelude.{◌≡◌, ◌≤◌, ◌-◌, ◌^◌, ℕ, ℤ, List, ◌&&◌, nat_le, nat_lt, nat_abs, Some, IsSome, true};
ghost use Rattle.std.specs.Prelude.{pos, negsuc, ◌+ℤ◌, ◌≤ℤ◌};
ghost use Rattle.fv_bit_sets.specs.Cells.{is_set};
ghost use Rattle.fv_bits.specs.Bits.{as_int};
ghost use Rattle.vl_mean.specs.FlatLaw.{flat_scopes};
ghost use Rattle.vl_mean.specs.Targets.{are_fixed, has_spot, spots_from};
ghost use Rattle.vl_size.specs.Size.{is_bound, offset_of, start_of, vector_size};
ghost use Rattle.vl_size.specs.Size as size;
ghost use Rattle.vl_size.specs.Table.{span};
ghost use Rattle.vl_size.specs.declared.decl.Decl.{Decl};
ghost use Rattle.fv_text.specs.declared.pos.Pos.{Pos};
ghost use Rattle.vl_tree.specs.Expr.{bit, indexed, part, whole};
ghost use Rattle.vl_tree.specs.ExprView.{selects, with_select};
ghost use Rattle.vl_flow_cells.specs.Places.{AreBelow, IsMaskOf};

use crate::constant::constant;
use crate::place::{near, offset_of, start_of};
use fv_bits::ones;
use vl_mean::Env;
use vl_size::select::{part_size, times};
use vl_size::{Decl, Own};
use vl_tree::{Expr, Select};

/// The bits from the first up to the one before `past`.
#[tactic(auto, using(crate::proofs::Ranges::ranges))]
fn mask_between(first: u32, past: u32) -> u128
    requires { past ≤ 128 }
    ensures { (k : ℕ) → is_set result k ≡ (nat_le first k && nat_lt k past) }
{
    if past <= first {
        return 0;
    }
    ones(past) - ones(first)
}

/// How many of a vector's places lie below this one.
#[tactic(auto, using(crate::proofs::Ranges::belows))]
fn places_below(width: u32, place: i128) -> u32
    ensures { AreBelow width place result }
{
    if place < 0 {
        return 0;
    }
    if place >= i128::from(width) {
        return width;
    }
    place as u32
}

/// So many bits of a vector from a place on upwards, those that it has.
fn mask_from(width: u32, low: i128, count: u32) -> u128
    requires few { width ≤ 128 }
    requires low { negsuc (2 ^ 66) ≤ℤ low }
    requires high { low ≤ℤ pos (2 ^ 66) }
    ensures { (n : List ℕ) (k : ℕ) → is_set result k ≡ has_spot n k (spots_from count width (Some n) low) }
{
    let first = places_below(width, low);
    let past = places_below(width, low + i128::from(count));
    mask_between(first, past)
}

/// So many bits of a vector, the lowest of them at the index.
fn mask_at(decl: &Decl, index: Own, count: u32) -> u128
    requires bound { is_bound decl.now.right ≡ true }
    requires few { decl.now.width ≤ 128 }
    requires count { count ≤ 128 }
    ensures { (n : List ℕ) (k : ℕ) → is_set result k ≡ has_spot n k (spots_from count decl.now.width (Some n)
        (offset_of decl.now (as_int index.width index.signed index.number))) }
{
    match near(index) {
        None => 0,
        Some(index) => mask_from(decl.width, offset_of(decl, index), count),
    }
}

/// The bits of the part `[start +: count]` of a vector.
fn mask_on(decl: &Decl, start: Own, count: u32) -> u128
    requires bound { is_bound decl.now.right ≡ true }
    requires few { decl.now.width ≤ 128 }
    requires count { count ≤ 128 }
    ensures { (n : List ℕ) (k : ℕ) → is_set result k ≡ has_spot n k (spots_from count decl.now.width (Some n)
        (start_of decl.now (as_int start.width start.signed start.number) count)) }
{
    match near(start) {
        None => 0,
        Some(start) => mask_from(decl.width, start_of(decl, start, count), count),
    }
}

/// The bits of the part `[left : right]` of a vector.
fn part_mask(decl: &Decl, left: Own, right: Own) -> u128
    requires bound { is_bound decl.now.right ≡ true }
    requires few { decl.now.width ≤ 128 }
    ensures { let l = as_int left.width left.signed left.number in
        let r = as_int right.width right.signed right.number in
        IsSome (size.part_size decl.now l r) → (n : List ℕ) (k : ℕ) → is_set result k
        ≡ has_spot n k (spots_from (span l r) decl.now.width (Some n) (offset_of decl.now r)) }
{
    match part_size(decl, left, right) {
        None => 0,
        Some(count) => mask_at(decl, right, count),
    }
}

/// The same, of a part with a start and a count.
fn indexed_mask(decl: &Decl, start: Own, count: Own) -> u128
    requires bound { is_bound decl.now.right ≡ true }
    requires few { decl.now.width ≤ 128 }
    ensures { let s = as_int start.width start.signed start.number in
        let c = as_int count.width count.signed count.number in
        IsSome (size.times c 1) → (n : List ℕ) (k : ℕ) → is_set result k
        ≡ has_spot n k (spots_from (nat_abs c) decl.now.width (Some n) (start_of decl.now s (nat_abs c))) }
{
    match times(count, 1) {
        None => 0,
        Some(size) => mask_on(decl, start, size),
    }
}

/// The bit of a vector at a constant index.
fn bit_of(decl: &Decl, index: &Expr, bare: &Env) -> u128
    requires bound { is_bound decl.now.right ≡ true }
    requires few { decl.now.width ≤ 128 }
    ensures { (ds : List Decl) (p : Pos) → are_fixed (flat_scopes ds) (bit p index.now whole) ≡ true
        → IsMaskOf ds decl.now (bit p index.now whole) result }
{
    mask_at(decl, constant(index, bare), 1)
}

/// The bits of the part `[left : right]` of a vector.
fn part_of(decl: &Decl, left: &Expr, right: &Expr, bare: &Env) -> u128
    requires bound { is_bound decl.now.right ≡ true }
    requires few { decl.now.width ≤ 128 }
    ensures { (ds : List Decl) (p : Pos) → IsSome (vector_size ds decl.now (part p left.now right.now whole))
        → IsMaskOf ds decl.now (part p left.now right.now whole) result }
{
    let left = constant(left, bare);
    part_mask(decl, left, constant(right, bare))
}

/// The bits of the part `[start +: count]` of a vector with a constant start.
fn indexed_of(decl: &Decl, start: &Expr, count: &Expr, bare: &Env) -> u128
    requires bound { is_bound decl.now.right ≡ true }
    requires few { decl.now.width ≤ 128 }
    ensures { (ds : List Decl) (p : Pos) → IsSome (vector_size ds decl.now (indexed p start.now count.now whole))
        → are_fixed (flat_scopes ds) (indexed p start.now count.now whole) ≡ true
        → IsMaskOf ds decl.now (indexed p start.now count.now whole) result }
{
    let start = constant(start, bare);
    indexed_mask(decl, start, constant(count, bare))
}

/// The bits of a vector that a constant select takes.
fn select_mask(decl: &Decl, select: &Select, bare: &Env) -> u128
    requires bound { is_bound decl.now.right ≡ true }
    requires few { decl.now.width ≤ 128 }
    ensures { (ds : List Decl) → IsSome (vector_size ds decl.now (with_select select.now whole))
        → are_fixed (flat_scopes ds) (with_select select.now whole) ≡ true
        → IsMaskOf ds decl.now (with_select select.now whole) result }
{
    match select {
        Select::Bit(_, index) => bit_of(decl, index, bare),
        Select::Part(_, left, right) => part_of(decl, left, right, bare),
        Select::Indexed(_, start, count) => indexed_of(decl, start, count, bare),
    }
}

/// The bits of a vector that constant selects take.
pub(crate) fn vector_mask(decl: &Decl, all: &[Select], bare: &Env) -> u128
    requires bound { is_bound decl.now.right ≡ true }
    requires few { decl.now.width ≤ 128 }
    ensures { (ds : List Decl) → IsSome (vector_size ds decl.now (selects all.now))
        → are_fixed (flat_scopes ds) (selects all.now) ≡ true → IsMaskOf ds decl.now (selects all.now) result }
{
    match all {
        [] => ones(decl.width),
        [select] => select_mask(decl, select, bare),
        [_, _, ..] => 0,
    }
}
