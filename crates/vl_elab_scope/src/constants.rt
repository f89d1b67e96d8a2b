//! Names that mean constants, and the numbers that stand in their place.
ghost use Rattle.std.specs.Prelude.{◌≡◌, IfOk, is_some};
ghost use Rattle.std.specs.Option.{option_copied};
ghost use Rattle.vl_tree.specs.Expr.{whole};
ghost use Rattle.vl_mean.specs.Constants as spec;
ghost use Rattle.vl_elab_spec.specs.Meanings as meanings;
ghost use Rattle.vl_elab_scope.specs.Seen.{seen_or};

use crate::meaning::Meaning;
use crate::names::Names;
use fv_text::{List, Memory, Number, Pos, Text};
use std::alloc::Global;
use vl_mean::Const;
use vl_tree::{Expr, ExprKind};

fn constant_among(meaning: Option<&Meaning>) -> Option<Const>
    ensures { result ≡ meanings.value_of (seen_or (option_copied meaning.entry)) }
{
    match meaning {
        Some(Meaning::Constant(value, _)) => Some(*value),
        None => None,
        Some(Meaning::LoopVariable | Meaning::Object(_) | Meaning::Faulty) => None,
        Some(Meaning::Shapeless | Meaning::Later) => None,
    }
}

/// The constant that the name means. None exactly where it means none.
pub fn constant_of(names: &Names, text: &Text) -> Option<Const>
    ensures { result ≡ meanings.constants names.now text.now }
{
    constant_among(names.meaning(text))
}

/// Whether the name means a constant.
pub(crate) fn is_constant(names: &Names, text: &Text) -> bool
    ensures { result ≡ is_some (meanings.constants names.now text.now) }
{
    constant_of(names, text).is_some()
}

/// A constant as a number with a size.
pub fn number_of(value: Const) -> Number
    ensures { result ≡ spec.number_of value }
{
    Number {
        sized: true,
        signed: value.signed,
        width: value.width,
        value: value.value,
        wild: 0,
        unknown: 0,
    }
}

fn name_or_number(
    alloc: Global,
    pos: Pos,
    text: &Text,
    value: Option<Const>,
) -> Result<Expr, Memory>
    ensures { IfOk result (λ e. e ≡ spec.named_constant pos text.now whole value) }
{
    match value {
        None => {
            let name = text.copied(alloc)?;
            Ok(Expr {
                pos,
                kind: ExprKind::Name(name, List::new(alloc)),
            })
        }
        Some(value) => Ok(Expr {
            pos,
            kind: ExprKind::Number(number_of(value)),
        }),
    }
}

/// A name without selects, or the number of the constant that it means.
pub(crate) fn whole_name(
    alloc: Global,
    pos: Pos,
    text: &Text,
    names: &Names,
) -> Result<Expr, Memory>
    ensures { IfOk result (λ e. e
        ≡ spec.named_constant pos text.now whole (meanings.constants names.now text.now)) }
{
    name_or_number(alloc, pos, text, constant_of(names, text))
}
