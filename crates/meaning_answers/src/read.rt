//! Expressions and declarations from text.

use anyhow::{Result, anyhow};
use fv_text::Token;
use std::alloc::Global;
use std::mem;
use vl_parse::parse;
use vl_prep::{Macros, prep};
use vl_token::lex;
use vl_tree::{Expr, ItemKind, Source};

/// The tree of a text, preprocessed with the macros, to which it may add. Where it is refused, the macros go.
fn source_of(alloc: Global, macros: &mut Macros, text: &str) -> Result<Source> {
    let tokens = tokens_of(alloc, macros, text)?;
    match parse(alloc, tokens.as_slice()) {
        Ok(source) => Ok(source),
        Err(fault) => Err(anyhow!("not parsed: {fault}: {text}")),
    }
}

/// What a text comes to by the macros.
fn tokens_of(alloc: Global, macros: &mut Macros, text: &str) -> Result<Vec<Token>> {
    let Ok(tokens) = lex(alloc, text.as_bytes(), 1, 1) else {
        return Err(anyhow!("no tokens: {text}"));
    };
    let before = mem::replace(macros, Macros::empty(alloc));
    let Ok((tokens, after)) = prep(alloc, before, tokens.as_slice()) else {
        return Err(anyhow!("not preprocessed: {text}"));
    };
    *macros = after;
    Ok(tokens)
}

/// Takes a directive.
pub(crate) fn directed(alloc: Global, macros: &mut Macros, text: &str) -> Result<()> {
    let text = format!(in alloc; "{text}\nmodule m; endmodule")?;
    source_of(alloc, macros, text.as_str())?;
    Ok(())
}

/// The tree of a module with the items.
pub(crate) fn items_of(alloc: Global, macros: &mut Macros, items: &str) -> Result<Source> {
    let text = format!(in alloc; "module m;\n{items}\nendmodule")?;
    source_of(alloc, macros, text.as_str())
}

/// The tree of a text in which the expression stands on a line of its own, so that its columns are counted from 1.
pub(crate) fn expr_of(alloc: Global, macros: &mut Macros, expr: &str) -> Result<Source> {
    let text = format!(in alloc; "module m; assign target =\n{expr}\n; endmodule")?;
    source_of(alloc, macros, text.as_str())
}

/// The expression of such a text.
pub(crate) fn expr_in(source: &Source) -> Result<&Expr> {
    for module in source.modules.as_slice() {
        for item in module.items.as_slice() {
            if let ItemKind::Assign(all) = &item.kind {
                for assignment in all.as_slice() {
                    return Ok(&assignment.value);
                }
            }
        }
    }
    Err(anyhow!("no expression"))
}
