ghost use Rattle.std.specs.Prelude.{IfOk, List, ◌<◌, ◌≡◌, length};
ghost use Rattle.vl_flow_spec.specs.Paths.{has_default};
ghost use Rattle.vl_size.specs.declared.decl.Decl.{Decl};
ghost use Rattle.vl_tree.specs.Stmt.{Stmt};
ghost use Rattle.vl_tree.specs.StmtView.{arms};
ghost use Rattle.vl_tree.specs.declared.stmt.Arm.{Arm};
ghost use Rattle.vl_flow_effects.specs.Effects.{AreEach, IsEffectOf, IsEffectOfAll, IsEffectOfArm, IsEffectOfArms};
ghost use Rattle.vl_flow_effects.specs.Effects.{IsEffectOfSome};

use crate::effect::Effect;
use fv_text::Memory;
use std::alloc::Global;

/// The effect of statements one after the other, from those of each: both halves first, so that a long block takes
/// about linear time.
pub(crate) fn in_sequence(alloc: Global, effects: &[Effect]) -> Result<Effect, Memory>
    ensures { IfOk result (λ made. (ds : List Decl) (xs : List Stmt) → AreEach (IsEffectOf ds) effects.now xs
        → IsEffectOfAll ds made xs) }
{
    if effects.len() == 0 {
        return Ok(Effect::none(alloc));
    }
    if effects.len() == 1 {
        return Ok(effects[0].then(&Effect::none(alloc))?);
    }
    let middle = effects.len() / 2;
    let first = in_sequence(alloc, &effects[..middle])?;
    let second = in_sequence(alloc, &effects[middle..])?;
    Ok(first.then(&second)?)
}

/// The effect of one of the arms, from those of each; there is an arm.
fn one_of(alloc: Global, effects: &[Effect]) -> Result<Effect, Memory>
    requires { 0 < length effects.now }
    ensures { IfOk result (λ made. (ds : List Decl) (xs : List Arm) → AreEach (IsEffectOfArm ds) effects.now xs
        → IsEffectOfSome ds made (arms xs)) }
{
    if effects.len() == 1 {
        return Ok(effects[0].then(&Effect::none(alloc))?);
    }
    let middle = effects.len() / 2;
    let first = one_of(alloc, &effects[..middle])?;
    let second = one_of(alloc, &effects[middle..])?;
    Ok(first.or(&second)?)
}

/// The same for a case, of which no arm may be taken where it isn't whole: where there is no default.
pub(crate) fn of_case(alloc: Global, effects: &[Effect], is_whole: bool) -> Result<Effect, Memory>
    ensures { IfOk result (λ made. (ds : List Decl) (xs : List Arm) → AreEach (IsEffectOfArm ds) effects.now xs
        → is_whole ≡ has_default (arms xs) → IsEffectOfArms ds made (arms xs)) }
{
    if effects.len() == 0 {
        return Ok(Effect::none(alloc));
    }
    let one = one_of(alloc, effects)?;
    if is_whole {
        return Ok(one);
    }
    Ok(one.or(&Effect::none(alloc))?)
}
