//! What some names mean, as tables of constants and of declarations.
ghost use Rattle.std.specs.Prelude.{◌≡◌, ◌++◌, ◌∷◌, [], false, ℕ, List, All, IfOk, IfSome, OnOk};
ghost use Rattle.std.specs.Prelude.{bytes_eq};
ghost use Rattle.std.specs.Prelude.{option_to_list, if◌then◌else◌};
ghost use Rattle.vl_size.specs.Table.{declared_as, is_declared, IsPlain};
ghost use Rattle.vl_mean.specs.Params.{constant};
ghost use Rattle.vl_elab_spec.specs.Expressions.{known};
ghost use Rattle.vl_elab_spec.specs.Meanings as meanings;
ghost use Rattle.vl_elab_scope.specs.Seen.{seen, object_of};
ghost use Rattle.vl_elab_scope.specs.Texts.{texts, of_names, or_else, AgreeOn};

use crate::meaning::{Meaning, Object};
use crate::names::Names;
use crate::texts::add_texts;
use fv_text::{List, Memory, Text};
use std::alloc::Global;
use vl_mean::{Params, settled};
use vl_size::{Decl, Decls};
use vl_tree::Expr;

/// The constants that the expression names.
#[tactic(auto, using(crate::proofs::Reached::agrees))]
fn params_of(alloc: Global, expr: &Expr, names: &Names) -> Result<Params, Memory>
    ensures { IfOk result (λ params. AgreeOn (constant params) (meanings.constants names.now) (texts expr.now)) }
{
    let mut found = List::new(alloc);
    add_texts(alloc, expr, &mut found)?;
    constants_of(alloc, found.as_slice(), names)
}

/// The expression with the number of each constant in its place, over a table of those that it names.
pub(crate) fn known_by_table(alloc: Global, expr: &Expr, names: &Names) -> Result<Expr, Memory>
    ensures { IfOk result (λ e. e ≡ known names.now expr.now) }
{
    let params = params_of(alloc, expr, names)?;
    settled(alloc, expr, &params)
}

/// Those of the names that mean a constant.
fn constants_of(alloc: Global, texts: &[Text], names: &Names) -> Result<Params, Memory>
    ensures { IfOk result (λ params. (text : List ℕ)
        → constant params text ≡ of_names (meanings.constants names.now) texts.now text) }
{
    let mut params = Params::new(alloc);
    for text in texts {
        add_constant(alloc, text, names, &mut params)?;
    }
    Ok(params)
}

fn add_constant(
    alloc: Global,
    text: &Text,
    names: &Names,
    params: &mut Params,
) -> Result<(), Memory>
    ensures { OnOk result ((other : List ℕ) → constant params.new other
        ≡ (if bytes_eq other text.now then or_else (constant params.old other) (meanings.constants names.now other)
        else constant params.old other)) }
{
    if params.get(text).is_some() {
        return Ok(());
    }
    match names.meaning(text) {
        None => Ok(()),
        Some(meaning) => set(alloc, text, meaning, params),
    }
}

/// Where the name means a constant.
fn set(alloc: Global, text: &Text, meaning: &Meaning, params: &mut Params) -> Result<(), Memory>
    ensures { OnOk result ((other : List ℕ) → constant params.new other
        ≡ (if bytes_eq text.now other then or_else (meanings.value_of (seen meaning.now)) (constant params.old other)
        else constant params.old other)) }
{
    match meaning {
        Meaning::Constant(value, _) => params.set(text.copied(alloc)?, *value),
        Meaning::LoopVariable
        | Meaning::Object(_)
        | Meaning::Faulty
        | Meaning::Shapeless
        | Meaning::Later => Ok(()),
    }
}

/// The nets and variables that the expression names.
#[tactic(auto, using(crate::proofs::Reached::agrees))]
pub(crate) fn decls_of(alloc: Global, expr: &Expr, names: &Names) -> Result<Decls, Memory>
    ensures { IfOk result (λ decls. AgreeOn (declared_as decls) (declared_as (meanings.objects names.now))
        (texts expr.now)) }
{
    let mut found = List::new(alloc);
    add_texts(alloc, expr, &mut found)?;
    objects_of(alloc, found.as_slice(), names)
}

/// Those of the names that mean a net or a variable.
fn objects_of(alloc: Global, texts: &[Text], names: &Names) -> Result<Decls, Memory>
    ensures { IfOk result (λ ds. (text : List ℕ)
        → declared_as ds text ≡ of_names (declared_as (meanings.objects names.now)) texts.now text) }
{
    let mut decls = Decls::new(alloc);
    for text in texts {
        add_object(alloc, text, names, &mut decls)?;
    }
    Ok(decls)
}

fn add_object(alloc: Global, text: &Text, names: &Names, decls: &mut Decls) -> Result<(), Memory>
    requires { All IsPlain decls.old }
    ensures plain { OnOk result (All IsPlain decls.new) }
    ensures ok { OnOk result ((other : List ℕ) → declared_as decls.new other
        ≡ (if bytes_eq other text.now
        then or_else (declared_as decls.old other) (declared_as (meanings.objects names.now) other)
        else declared_as decls.old other)) }
{
    if decls.is_declared(text) {
        return Ok(());
    }
    match names.meaning(text) {
        None => Ok(()),
        Some(meaning) => add(alloc, meaning, decls),
    }
}

/// Where the name means a net or a variable.
fn add(alloc: Global, meaning: &Meaning, decls: &mut Decls) -> Result<(), Memory>
    requires fresh { IfSome (object_of (seen meaning.now)) (λ d. is_declared decls.old d.name ≡ false) }
    requires plain { All IsPlain decls.old }
    ensures plain { OnOk result (All IsPlain decls.new) }
    ensures ok { OnOk result (decls.new ≡ decls.old ++ option_to_list (object_of (seen meaning.now))) }
{
    match meaning {
        Meaning::Object(object) => push(alloc, object, decls),
        Meaning::Constant(_, _)
        | Meaning::LoopVariable
        | Meaning::Faulty
        | Meaning::Shapeless
        | Meaning::Later => Ok(()),
    }
}

/// So many names that a table has no place for one more don't stand in memory.
#[tactic(auto, using(vl_size::proofs::Plain::plain_names))]
fn push(alloc: Global, object: &Object, decls: &mut Decls) -> Result<(), Memory>
    requires fresh { is_declared decls.old object.now.decl.name ≡ false }
    requires plain { All IsPlain decls.old }
    ensures plain { OnOk result (All IsPlain decls.new) }
    ensures ok { OnOk result (decls.new ≡ decls.old ++ object.now.decl ∷ []) }
{
    if decls.len() >= 4_294_967_295 {
        return Err(Memory);
    }
    decls.push(copied(alloc, &object.decl)?)
}

pub(crate) fn copied(alloc: Global, decl: &Decl) -> Result<Decl, Memory>
    ensures { IfOk result (λ d. d ≡ decl.now) }
{
    Ok(Decl {
        name: decl.name.copied(alloc)?,
        width: decl.width,
        signed: decl.signed,
        left: decl.left,
        right: decl.right,
        words: decl.words,
        class: decl.class,
        output: decl.output,
    })
}
