//! Nets and variables that items declare.
ghost use Rattle.std.specs.Prelude.{◌≡◌, ◌++◌, ◌∷◌, [], List, IfOk, OnOk, length};
ghost use Rattle.vl_tree.specs.Item.{items};
ghost use Rattle.vl_mean.specs.Declarations as spec;
ghost use Rattle.vl_mean.specs.Runs.{Each};
ghost use Rattle.vl_mean.specs.Scopes.{Scope};
ghost use Rattle.vl_elab_const.specs.Numbers.{HaveNumbers};
ghost use Rattle.vl_elab_const.specs.InRange.{AreWords, IsShort};
ghost use Rattle.vl_elab_const.specs.Openable.{IsInRange};
ghost use Rattle.vl_elab_decls.specs.Forms as forms;

use crate::decls_forms::{Form, decl_with};
use crate::words::{class_of_attributes, class_of_kind};
use fv_text::{List, Memory};
use std::alloc::Global;
use vl_elab_const::{Extent, extent_in, words_in};
use vl_elab_scope::Names;
use vl_size::{Class, Decl};
use vl_tree::{AttributeInstance, Declaration, DeclaredName, Item, ItemKind};

fn add_name(
    alloc: Global,
    form: Form,
    name: &DeclaredName,
    numbers: &Names,
    decls: &mut List<Decl>,
) -> Result<(), Memory>
    ensures { OnOk result ((ss : List Scope) → HaveNumbers numbers.now ss
        → AreWords (spec.word_bounds ss name.now.words)
        → decls.new ≡ decls.old ++ forms.one_with ss form name.now ∷ []) }
{
    let words = words_in(alloc, &name.words, numbers)?;
    let decl = decl_with(alloc, form, &name.name, words)?;
    decls.push(decl)
}

fn add_names(
    alloc: Global,
    form: Form,
    all: &[DeclaredName],
    numbers: &Names,
    decls: &mut List<Decl>,
) -> Result<(), Memory>
    ensures { OnOk result ((ss : List Scope) → HaveNumbers numbers.now ss
        → Each forms.HasWords (forms.all_with ss form all.now)
        → decls.new ≡ decls.old ++ forms.all_with ss form all.now) }
{
    for name in all {
        add_name(alloc, form, name, numbers, decls)?;
    }
    Ok(())
}

fn declaration_form(
    alloc: Global,
    attributes: &[AttributeInstance],
    declaration: &Declaration,
    numbers: &Names,
) -> Result<Form, Memory>
    ensures { IfOk result (λ form. (ss : List Scope) → HaveNumbers numbers.now ss
        → forms.IsFormOf ss (forms.declared_class attributes.now declaration.now.net) declaration.now.shape form) }
{
    let extent = extent_in(alloc, &declaration.shape.range, numbers)?;
    let class = class_of_attributes(class_of_kind(declaration.net), attributes);
    Ok(Form {
        class,
        signed: declaration.shape.signed,
        output: false,
        extent,
    })
}

/// `integer x` is `reg signed [31:0] x` (IEEE 1364-2005, section 3.9).
fn integer_form(attributes: &[AttributeInstance]) -> Form
    ensures { result ≡ forms.integer_form attributes.now }
{
    Form {
        class: class_of_attributes(Class::Variable, attributes),
        signed: true,
        output: false,
        extent: Extent {
            bits: 32,
            left: 31,
            right: 0,
        },
    }
}

fn add_declaration(
    alloc: Global,
    attributes: &[AttributeInstance],
    declaration: &Declaration,
    numbers: &Names,
    decls: &mut List<Decl>,
) -> Result<(), Memory>
    ensures { OnOk result ((ss : List Scope) → HaveNumbers numbers.now ss
        → Each IsInRange (forms.declaration_decls ss attributes.now declaration.now)
        → decls.new ≡ decls.old ++ forms.declaration_decls ss attributes.now declaration.now) }
{
    let form = declaration_form(alloc, attributes, declaration, numbers)?;
    add_names(alloc, form, declaration.names.as_slice(), numbers, decls)
}

fn add_integers(
    alloc: Global,
    attributes: &[AttributeInstance],
    all: &[DeclaredName],
    numbers: &Names,
    decls: &mut List<Decl>,
) -> Result<(), Memory>
    ensures { OnOk result ((ss : List Scope) → HaveNumbers numbers.now ss
        → Each IsInRange (forms.integer_decls ss attributes.now all.now)
        → decls.new ≡ decls.old ++ forms.integer_decls ss attributes.now all.now) }
{
    let form = integer_form(attributes);
    add_names(alloc, form, all, numbers, decls)
}

#[tactic(auto, using(crate::proofs::Going::none_more))]
fn add_item(
    alloc: Global,
    item: &Item,
    numbers: &Names,
    decls: &mut List<Decl>,
) -> Result<(), Memory>
    ensures { OnOk result ((ss : List Scope) → HaveNumbers numbers.now ss
        → Each IsInRange (spec.declared_by ss item.now)
        → decls.new ≡ decls.old ++ spec.declared_by ss item.now) }
{
    let attributes = item.attributes.as_slice();
    match &item.kind {
        ItemKind::Declaration(declaration) => {
            add_declaration(alloc, attributes, declaration, numbers, decls)
        }
        ItemKind::Integer(all) => {
            add_integers(alloc, attributes, all.as_slice(), numbers, decls)
        }
        ItemKind::Genvar(_) | ItemKind::Parameter(_, _) | ItemKind::Assign(_) => Ok(()),
        ItemKind::Always(_, _) | ItemKind::Initial(_) | ItemKind::Instance(_) => Ok(()),
        ItemKind::Generate(_) | ItemKind::For(_, _) => Ok(()),
        ItemKind::If(_, _, None) | ItemKind::If(_, _, Some(_)) => Ok(()),
    }
}

fn add_items(
    alloc: Global,
    all: &[Item],
    numbers: &Names,
    decls: &mut List<Decl>,
) -> Result<(), Memory>
    ensures { OnOk result ((ss : List Scope) → HaveNumbers numbers.now ss
        → Each IsInRange (spec.declared ss (items all.now))
        → decls.new ≡ decls.old ++ spec.declared ss (items all.now)) }
{
    for item in all {
        add_item(alloc, item, numbers, decls)?;
    }
    Ok(())
}

/// What items declare, in order, where it is in range (IEEE 1364-2005, sections 3.2 and 3.9). `numbers`: those of the
/// constants over which bounds are read.
pub fn decls_of_items(alloc: Global, all: &[Item], numbers: &Names) -> Result<List<Decl>, Memory>
    ensures { IfOk result (λ decls. (ss : List Scope) → HaveNumbers numbers.now ss
        → Each IsInRange (spec.declared ss (items all.now)) → decls ≡ spec.declared ss (items all.now)) }
{
    let mut decls = List::new(alloc);
    add_items(alloc, all, numbers, &mut decls)?;
    Ok(decls)
}

/// How many nets and variables an item declares.
pub fn declared_count(item: &Item) -> usize
    ensures { (ss : List Scope) → result ≡ length (spec.declared_by ss item.now) }
{
    match &item.kind {
        ItemKind::Declaration(declaration) => declaration.names.len(),
        ItemKind::Integer(all) => all.len(),
        ItemKind::Genvar(_) | ItemKind::Parameter(_, _) | ItemKind::Assign(_) => 0,
        ItemKind::Always(_, _) | ItemKind::Initial(_) | ItemKind::Instance(_) => 0,
        ItemKind::Generate(_) | ItemKind::For(_, _) => 0,
        ItemKind::If(_, _, None) | ItemKind::If(_, _, Some(_)) => 0,
    }
}
