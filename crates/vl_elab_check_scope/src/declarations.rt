//! Declarations of nets, variables and genvars.
ghost use Rattle.std.specs.Prelude.{◌≡◌, ◌++◌, ℕ, List, None, map, IfOk, OnOk};
ghost use Rattle.vl_size.specs.declared.decl.Class.TheVariants as class;
ghost use Rattle.vl_tree.specs.declared.declaration.NetKind.TheVariants as net;
ghost use Rattle.vl_mean.specs.Declarations.{class_of_attributes, class_of_kind, joined_attributes};
ghost use Rattle.vl_elab_spec.specs.Items as items;
ghost use Rattle.vl_elab_spec.specs.Meanings as meanings;
ghost use Rattle.vl_elab_spec.specs.Refused.{lowest};
ghost use Rattle.vl_elab_scope.specs.Alike.{Alike};
ghost use Rattle.vl_elab_names.specs.Known.{AreNames};

use crate::twice::{declared_twice, genvars_twice};
use fv_text::{Memory, Pos, Text};
use std::alloc::Global;
use vl_elab_check_expr::first_of;
use vl_elab_check_item::{names_fault, range_fault};
use vl_elab_decls::class_of_attributes;
use vl_elab_names::NameSet;
use vl_elab_scope::Names;
use vl_elab_spec::ElabFault;
use vl_size::Class;
use vl_tree::{AttributeInstance, Declaration, DeclaredName, NetKind};

fn class_of_kind(kind: NetKind) -> Class
    ensures { result ≡ class_of_kind kind }
{
    match kind {
        NetKind::Wire => Class::Net,
        NetKind::Reg => Class::Variable,
    }
}

/// A declaration of nets or variables. Its names stand behind those before it then.
pub fn declaration_fault(
    alloc: Global,
    attributes: &[AttributeInstance],
    declaration: &Declaration,
    names: &Names,
    earlier: &mut NameSet,
) -> Result<Option<ElabFault>, Memory>
    ensures fault { IfOk result (λ g. (known : List meanings.Names) (before : List (List ℕ)) → Alike names.now known
        → AreNames earlier.old before
        → g ≡ lowest (items.twice before (items.placed_names declaration.now.names)
        ++ items.range_refusals known declaration.now.shape.range
        ++ items.names_refusals known declaration.now.net
        (class_of_attributes (class_of_kind declaration.now.net) (joined_attributes attributes.now))
        declaration.now.shape.range declaration.now.names)) }
    ensures names { OnOk result ((before : List (List ℕ)) → AreNames earlier.old before
        → AreNames earlier.new (before ++ map (λ x. x.name) declaration.now.names)) }
{
    let all = declaration.names.as_slice();
    let shape = &declaration.shape.range;
    let twice = declared_twice(alloc, all, earlier)?;
    let range = range_fault(alloc, shape, names)?;
    let class = class_of_attributes(class_of_kind(declaration.net), attributes);
    let inner = names_fault(alloc, declaration.net, class, shape, all, names)?;
    Ok(first_of(first_of(twice, range), inner))
}

/// The same of integers.
pub fn integer_fault(
    alloc: Global,
    attributes: &[AttributeInstance],
    all: &[DeclaredName],
    names: &Names,
    earlier: &mut NameSet,
) -> Result<Option<ElabFault>, Memory>
    ensures fault { IfOk result (λ g. (known : List meanings.Names) (before : List (List ℕ)) → Alike names.now known
        → AreNames earlier.old before
        → g ≡ lowest (items.twice before (items.placed_names all.now)
        ++ items.names_refusals known net.Reg (class_of_attributes class.Variable (joined_attributes attributes.now))
        None all.now)) }
    ensures names { OnOk result ((before : List (List ℕ)) → AreNames earlier.old before
        → AreNames earlier.new (before ++ map (λ x. x.name) all.now)) }
{
    let twice = declared_twice(alloc, all, earlier)?;
    let class = class_of_attributes(Class::Variable, attributes);
    let inner = names_fault(alloc, NetKind::Reg, class, &None, all, names)?;
    Ok(first_of(twice, inner))
}

/// The same of genvars, at one place.
pub fn genvar_names_fault(
    alloc: Global,
    all: &[Text],
    pos: Pos,
    earlier: &mut NameSet,
) -> Result<Option<ElabFault>, Memory>
    ensures fault { IfOk result (λ g. (before : List (List ℕ)) → AreNames earlier.old before
        → g ≡ lowest (items.twice before (map (λ text. (text, pos)) all.now))) }
    ensures names { OnOk result ((before : List (List ℕ)) → AreNames earlier.old before
        → AreNames earlier.new (before ++ all.now)) }
{
    genvars_twice(alloc, all, pos, earlier)
}
