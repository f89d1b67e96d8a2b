//! Copies of attributes, and of what stands in them.
ghost use Rattle.std.specs.Prelude.{◌≡◌, IfOk};

use fv_text::{List, Memory, Text};
use std::alloc::Global;
use vl_mean::{Params, settled};
use vl_tree::{Attribute, AttributeInstance, Expr};

/// The attributes before a statement. Names in their values aren't looked up.
pub(crate) fn copied_attributes(
    alloc: Global,
    all: &[AttributeInstance],
) -> Result<List<AttributeInstance>, Memory>
    ensures { IfOk result (λ attributes. attributes ≡ all.now) }
{
    let mut copies = List::new(alloc);
    for instance in all {
        copies.push(copied_instance(alloc, instance)?)?;
    }
    Ok(copies)
}

fn copied_instance(alloc: Global, instance: &AttributeInstance) -> Result<AttributeInstance, Memory>
    ensures { IfOk result (λ i. i ≡ instance.now) }
{
    let attributes = copied_names(alloc, instance.attributes.as_slice())?;
    Ok(AttributeInstance {
        pos: instance.pos,
        attributes,
    })
}

fn copied_names(alloc: Global, all: &[Attribute]) -> Result<List<Attribute>, Memory>
    ensures { IfOk result (λ attributes. attributes ≡ all.now) }
{
    let mut copies = List::new(alloc);
    for attribute in all {
        copies.push(copied_attribute(alloc, attribute)?)?;
    }
    Ok(copies)
}

fn copied_attribute(alloc: Global, attribute: &Attribute) -> Result<Attribute, Memory>
    ensures { IfOk result (λ a. a ≡ attribute.now) }
{
    let name = attribute.name.copied(alloc)?;
    let value = copied_value(alloc, &attribute.value)?;
    Ok(Attribute {
        pos: attribute.pos,
        name,
        value,
    })
}

fn copied_value(alloc: Global, value: &Option<Expr>) -> Result<Option<Expr>, Memory>
    ensures { IfOk result (λ v. v ≡ value.now) }
{
    match value {
        None => Ok(None),
        Some(expr) => Ok(Some(copied_expr(alloc, expr)?)),
    }
}

/// Over no constants, nothing in it is replaced.
fn copied_expr(alloc: Global, expr: &Expr) -> Result<Expr, Memory>
    ensures { IfOk result (λ e. e ≡ expr.now) }
{
    settled(alloc, expr, &Params::new(alloc))
}

pub(crate) fn copied_label(alloc: Global, label: &Option<Text>) -> Result<Option<Text>, Memory>
    ensures { IfOk result (λ l. l ≡ label.now) }
{
    match label {
        None => Ok(None),
        Some(text) => Ok(Some(text.copied(alloc)?)),
    }
}
