//! Nets, variables and genvars that items declare.
ghost use Rattle.std.specs.Prelude.{◌≡◌, IfOk, OnOk};
ghost use Rattle.vl_tree.specs.Item.{items};
ghost use Rattle.vl_elab_spec.specs.Meanings.{loop_variable};
ghost use Rattle.vl_elab_scope.specs.Seen.{with_name};
ghost use Rattle.vl_elab_decls.specs.Objects as spec;

use crate::shape_forms::{Form, add_declared};
use crate::words::{class_of_attributes, class_of_kind, role_of_kind, words_if_known};
use fv_text::{Memory, Text};
use std::alloc::Global;
use vl_elab_params::{Extent, known_extent};
use vl_elab_scope::{Level, Meaning, Names};
use vl_elab_spec::Role;
use vl_size::Class;
use vl_tree::{AttributeInstance, Declaration, DeclaredName, Item, ItemKind};

fn declaration_form(
    alloc: Global,
    attributes: &[AttributeInstance],
    declaration: &Declaration,
    names: &Names,
) -> Result<Form, Memory>
    ensures { IfOk result (λ f. f ≡ spec.declaration_form names.now attributes.now declaration.now) }
{
    let extent = known_extent(alloc, &declaration.shape.range, names)?;
    Ok(Form {
        class: class_of_attributes(class_of_kind(declaration.net), attributes),
        signed: declaration.shape.signed,
        scalar: declaration.shape.range.is_none(),
        role: role_of_kind(declaration.net),
        output: false,
        extent,
    })
}

fn integer_form(attributes: &[AttributeInstance]) -> Form
    ensures { result ≡ spec.integer_form attributes.now }
{
    Form {
        class: class_of_attributes(Class::Variable, attributes),
        signed: true,
        scalar: false,
        role: Role::Variable,
        output: false,
        extent: Some(Extent {
            bits: 32,
            left: 31,
            right: 0,
        }),
    }
}

fn add_name(
    alloc: Global,
    form: Form,
    name: &DeclaredName,
    names: &Names,
    level: &mut Level,
) -> Result<(), Memory>
    requires { spec.Fits form.extent }
    ensures { OnOk result (level.new ≡ spec.with_one names.now form level.old name.now) }
{
    let words = words_if_known(alloc, form.class, name, names)?;
    add_declared(alloc, form, &name.name, words, level)
}

fn add_names(
    alloc: Global,
    form: Form,
    all: &[DeclaredName],
    names: &Names,
    level: &mut Level,
) -> Result<(), Memory>
    requires { spec.Fits form.extent }
    ensures { OnOk result (level.new ≡ spec.with_declared names.now form level.old all.now) }
{
    for name in all {
        add_name(alloc, form, name, names, level)?;
    }
    Ok(())
}

fn add_genvar(alloc: Global, text: &Text, level: &mut Level) -> Result<(), Memory>
    ensures { OnOk result (level.new ≡ with_name level.old text.now loop_variable) }
{
    level.add(text.copied(alloc)?, Meaning::LoopVariable)
}

fn add_genvars(alloc: Global, all: &[Text], level: &mut Level) -> Result<(), Memory>
    ensures { OnOk result (level.new ≡ spec.with_genvars level.old all.now) }
{
    for text in all {
        add_genvar(alloc, text, level)?;
    }
    Ok(())
}

fn add_declaration(
    alloc: Global,
    attributes: &[AttributeInstance],
    declaration: &Declaration,
    names: &Names,
    level: &mut Level,
) -> Result<(), Memory>
    ensures { OnOk result (level.new ≡ spec.with_declared names.now
        (spec.declaration_form names.now attributes.now declaration.now) level.old declaration.now.names) }
{
    let form = declaration_form(alloc, attributes, declaration, names)?;
    add_names(alloc, form, declaration.names.as_slice(), names, level)
}

fn add_item(alloc: Global, item: &Item, names: &Names, level: &mut Level) -> Result<(), Memory>
    ensures { OnOk result (level.new ≡ spec.with_item names.now level.old item.now) }
{
    match &item.kind {
        ItemKind::Declaration(declaration) => add_declaration(
            alloc,
            item.attributes.as_slice(),
            declaration,
            names,
            level,
        ),
        ItemKind::Integer(all) => add_names(
            alloc,
            integer_form(item.attributes.as_slice()),
            all.as_slice(),
            names,
            level,
        ),
        ItemKind::Genvar(all) => add_genvars(alloc, all.as_slice(), level),
        ItemKind::Parameter(_, _) | ItemKind::Assign(_) | ItemKind::Always(_, _) => Ok(()),
        ItemKind::Initial(_) | ItemKind::Instance(_) | ItemKind::Generate(_) => Ok(()),
        ItemKind::For(_, _) | ItemKind::If(_, _, None) | ItemKind::If(_, _, Some(_)) => Ok(()),
    }
}

pub(crate) fn add_items(
    alloc: Global,
    all: &[Item],
    names: &Names,
    level: &mut Level,
) -> Result<(), Memory>
    ensures { OnOk result (level.new ≡ spec.with_items names.now level.old (items all.now)) }
{
    for item in all {
        add_item(alloc, item, names, level)?;
    }
    Ok(())
}
