//! Declared names and parameters from text.

ghost use Rattle.std.specs.Prelude.{◌≡◌, ◌≤◌, All, IfSome, IfOk};
ghost use Rattle.vl_size.specs.Table as table;
ghost use Rattle.vl_size.specs.Table.{IsPlain, IsShaped, span};

use anyhow::{Result, anyhow};
use fv_text::Text;
use std::alloc::Global;
use vl_mean::{Params, constant};
use vl_size::{Class, Decl, Decls};
use vl_tree::{Declaration, Expr, Item, ItemKind, Parameter, Range, Source};

/// A bound of a range: a constant that is read by its sign.
fn bound(alloc: Global, expr: &Expr, params: &Params) -> Result<i64> {
    let Ok(found) = constant(alloc, expr, params) else {
        return Err(anyhow!("a bound that isn't constant"));
    };
    let value = (found.value % (1 << 32)) as i64;
    if found.signed && value >= 1 << 31 {
        return Ok(value - (1 << 32));
    }
    Ok(value)
}

/// The bounds of a range; a scalar has `[0:0]`.
fn bounds(alloc: Global, range: &Option<Range>, params: &Params) -> Result<(i64, i64)> {
    match range {
        None => Ok((0, 0)),
        Some(range) => {
            let left = bound(alloc, &range.left, params)?;
            let right = bound(alloc, &range.right, params)?;
            Ok((left, right))
        }
    }
}

/// The width of a range, at most 128.
fn width(left: i64, right: i64) -> Option<u32>
    ensures { IfSome result (λ w. (w ≡ span left right) × (1 ≤ w) × (w ≤ 128)) }
{
    let past = left.abs_diff(right);
    if past > 127 {
        return None;
    }
    Some(past as u32 + 1)
}

/// Whether no bracket stands in the name.
fn is_plain(name: &[u8]) -> bool
    ensures { result ≡ table.is_plain name.now }
{
    name.iter().all(|c| *c != b'[')
}

/// Declares a name, which is no other's.
#[tactic(auto, using(vl_size::proofs::Plain::plain_names))]
fn declare(decls: &mut Decls, decl: Decl) -> Result<()>
    requires shaped { IsShaped decl }
    requires plain { All IsPlain decls.old }
    ensures { All IsPlain decls.new }
{
    if decls.len() >= 1_000_000 || decls.is_declared(&decl.name) || !is_plain(decl.name.bytes()) {
        return Err(anyhow!("a name that can't be declared"));
    }
    decls.push(decl)?;
    Ok(())
}

/// A name of the width of its range; without class, since sizes and values ask for none.
fn decl(name: Text, signed: bool, bounds: (i64, i64), words: Option<(i64, i64)>) -> Result<Decl>
    ensures { IfOk result IsShaped }
{
    let (left, right) = bounds;
    let Some(width) = width(left, right) else {
        return Err(anyhow!("more than 128 bits"));
    };
    Ok(Decl {
        name,
        width,
        signed,
        left,
        right,
        words,
        class: Class::Variable,
        output: false,
    })
}

/// The bounds of a memory's words.
fn words(alloc: Global, range: &Option<Range>, params: &Params) -> Result<Option<(i64, i64)>> {
    if range.is_none() {
        return Ok(None);
    }
    let bounds = bounds(alloc, range, params)?;
    Ok(Some(bounds))
}

/// The names of a declaration.
fn declare_all(alloc: Global, decls: &mut Decls, of: &Declaration, params: &Params) -> Result<()>
    requires { All IsPlain decls.old }
    ensures { All IsPlain decls.new }
{
    let bounds = bounds(alloc, &of.shape.range, params)?;
    for name in of.names.as_slice() {
        let words = words(alloc, &name.words, params)?;
        let text = name.name.copied(alloc)?;
        let decl = decl(text, of.shape.signed, bounds, words)?;
        declare(decls, decl)?;
    }
    Ok(())
}

/// The parameters of an item, each over those before it.
fn set_all(alloc: Global, params: &mut Params, all: &[Parameter]) -> Result<()> {
    for parameter in all {
        let Ok(value) = constant(alloc, &parameter.value, params) else {
            return Err(anyhow!("a parameter that isn't constant"));
        };
        params.set(parameter.name.copied(alloc)?, value)?;
    }
    Ok(())
}

/// The names or parameters of an item.
fn declare_item(alloc: Global, decls: &mut Decls, params: &mut Params, item: &Item) -> Result<()>
    requires { All IsPlain decls.old }
    ensures { All IsPlain decls.new }
{
    match &item.kind {
        ItemKind::Declaration(of) => declare_all(alloc, decls, of, params),
        ItemKind::Parameter(_, all) => set_all(alloc, params, all.as_slice()),
        _ => Err(anyhow!("an item that declares no name")),
    }
}

/// What the items of a text declare.
pub(crate) fn names_of(alloc: Global, source: &Source) -> Result<(Decls, Params)> {
    let mut decls = Decls::new(alloc);
    let mut params = Params::new(alloc);
    for module in source.modules.as_slice() {
        for item in module.items.as_slice() {
            declare_item(alloc, &mut decls, &mut params, item)?;
        }
    }
    Ok((decls, params))
}
