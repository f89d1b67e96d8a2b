ghost use Rattle.std.specs.Prelude.{◌≡◌, ◌≤◌, List, true, is_none, if◌then◌else◌};
ghost use Rattle.fv_text.specs.declared.pos.Pos.{Pos};
ghost use Rattle.fv_bits.specs.Bits.{as_int};
ghost use Rattle.vl_size.specs.Size as spec;
ghost use Rattle.vl_size.specs.declared.decl.Decl.{Decl};
ghost use Rattle.vl_tree.specs.Expr.{indexed, name, part, whole};
ghost use Rattle.vl_tree.specs.ExprView.{selects, with_select};

use crate::expr::weigh;
use fv_text::Text;
use vl_mean::{Env, value};
use vl_size::select::{part_size, times};
use vl_size::{Decl, Decls, Own, self_size, sign_of};
use vl_tree::{Expr, Select};

/// The size by itself; 0 where there is none.
fn own_size(expr: &Expr, env: &Env) -> u32
    ensures value { result ≡ spec.or_none (spec.size env.now.decls expr.now) }
    ensures few { result ≤ 128 }
{
    match self_size(expr, env.decls()) {
        None => 0,
        Some(size) => size,
    }
}

/// A constant at its own size and sign, whatever is declared.
fn constant(expr: &Expr, bare: &Env) -> Own
    ensures { spec.is_constant expr.now ≡ true → (ds : List Decl) → as_int result.width result.signed result.number
        ≡ spec.index_of (spec.operand_of ds spec.no_names expr.now) }
{
    let width = own_size(expr, bare);
    let signed = sign_of(expr, bare.decls());
    let number = value(expr, width, signed, bare);
    Own {
        width,
        signed,
        number,
    }
}

/// Of the part `[left : right]` of a vector.
fn part_bits(decl: &Decl, left: &Expr, right: &Expr, decls: &Decls, bare: &Env) -> Option<u32>
    ensures { (p : Pos)
        → result ≡ spec.vector_size decls.now decl.now (part p left.now right.now whole) }
{
    let first = weigh(left, decls);
    let second = weigh(right, decls);
    let _first = first.size?;
    let _second = second.size?;
    if !first.is_constant || !second.is_constant {
        return None;
    }
    part_size(decl, constant(left, bare), constant(right, bare))
}

/// Of the part `[start +: count]` of a vector.
fn indexed_bits(decl: &Decl, start: &Expr, count: &Expr, decls: &Decls, bare: &Env) -> Option<u32>
    ensures { (p : Pos)
        → result ≡ spec.vector_size decls.now decl.now (indexed p start.now count.now whole) }
{
    let _start = self_size(start, decls)?;
    let counted = weigh(count, decls);
    let _count = counted.size?;
    if !counted.is_constant {
        return None;
    }
    times(constant(count, bare), 1)
}

/// The size of a vector's select.
fn select_bits(decl: &Decl, select: &Select, decls: &Decls, bare: &Env) -> Option<u32>
    ensures { result ≡ spec.vector_size decls.now decl.now (with_select select.now whole) }
{
    match select {
        Select::Bit(_, index) => {
            let _index = self_size(index, decls)?;
            Some(1)
        }
        Select::Part(_, left, right) => part_bits(decl, left, right, decls, bare),
        Select::Indexed(_, start, count) => indexed_bits(decl, start, count, decls, bare),
    }
}

/// The size of selects of a declared name: of a memory, the first one takes the word.
fn selected_bits(decl: &Decl, all: &[Select], decls: &Decls, bare: &Env) -> Option<u32>
    ensures { let ss = selects all.now in
        result ≡ (if is_none decl.now.words then spec.vector_size decls.now decl.now ss
        else spec.word_size decls.now decl.now ss) }
{
    if decl.words.is_none() {
        return match all {
            [] => Some(decl.width),
            [select] => select_bits(decl, select, decls, bare),
            [_, _, ..] => None,
        };
    }
    match all {
        [Select::Bit(_, index)] => {
            let _index = self_size(index, decls)?;
            Some(decl.width)
        }
        [Select::Bit(_, index), select] => {
            let _index = self_size(index, decls)?;
            select_bits(decl, select, decls, bare)
        }
        _ => None,
    }
}

/// The size of selects of a name. None exactly where it isn't declared, or they have none.
pub(crate) fn name_bits(text: &Text, all: &[Select], decls: &Decls, bare: &Env) -> Option<u32>
    ensures { (p : Pos) → result ≡ spec.size decls.now (name p text.now (selects all.now)) }
{
    let decl = decls.named(text)?;
    selected_bits(decl, all, decls, bare)
}
