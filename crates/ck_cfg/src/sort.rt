//! The order of checks that a configuration asks for.

ghost use Rattle.std.specs.Prelude.{◌≡◌, ◌++◌, not, IfOk, OnOk};
ghost use Rattle.std.specs.List.{filter, position};
ghost use Rattle.ck_cfg.specs.Checks.{is_named, moved};

use crate::check::Check;
use fv_text::{List, Memory, Text};
use std::alloc::Global;

/// The checks that are named come first, in the order of the names. Each name takes a pass over the checks that are
/// left, of which there are few.
pub(crate) fn moved(
    alloc: Global,
    names: &[Text],
    checks: List<Check>,
) -> Result<List<Check>, Memory>
    ensures { IfOk result (λ all. all ≡ moved names.now checks) }
{
    let mut rest = checks.into_vec();
    let mut front = Vec::new(alloc);
    for name in names {
        move_named(name.bytes(), &mut rest, &mut front)?;
    }
    front.append(&mut rest)?;
    Ok(List::from_vec(front))
}

/// Moves the checks of this name.
fn move_named(name: &[u8], rest: &mut Vec<Check>, front: &mut Vec<Check>) -> Result<(), Memory>
    ensures front { OnOk result (front.new.items ≡ front.old.items ++ filter (is_named name.now) rest.old.items) }
    ensures rest { OnOk result (rest.new.items ≡ filter (λ c. not (is_named name.now c)) rest.old.items) }
{
    while let Some(index) = place_of(name, rest.as_slice()) {
        front.push(rest.remove(index))?;
    }
    Ok(())
}

/// Where the first check of this name stands.
fn place_of(name: &[u8], checks: &[Check]) -> Option<usize>
    ensures { result ≡ position (is_named name.now) checks.now }
{
    checks.iter().position(|check| check.name.bytes() == name)
}
