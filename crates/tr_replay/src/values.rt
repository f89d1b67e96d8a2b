//! The values of names in a cycle.

ghost use Rattle.std.specs.Prelude.{◌≡◌, ◌++◌, IfOk, OnOk};
ghost use Rattle.std.specs.List.{flat_map};
ghost use Rattle.tr_replay.specs.Values as by;

use crate::chosen::{number_at, row_at};
use fv_text::{List, Memory};
use std::alloc::Global;
use wn_net::{NetName, Place, State};

/// The value of a node, or those of a memory's words.
fn put_place(
    made: &mut Vec<u128>,
    place: Place,
    values: &[u128],
    state: &State,
) -> Result<(), Memory>
    ensures { OnOk result (made.new.items ≡ made.old.items
        ++ by.values_by values.now state.now.mems place) }
{
    match place {
        Place::Node(id) => {
            made.push(number_at(values, id as usize))?;
            Ok(())
        }
        Place::Mem(mem) => {
            made.extend_from_slice(row_at(state.mems.as_slice(), mem as usize))?;
            Ok(())
        }
    }
}

/// The values of all names, where nodes have these.
#[tactic(auto, using(crate::proofs::Each::values_step, crate::proofs::Each::values_end))]
pub(crate) fn name_values(
    alloc: Global,
    names: &[NetName],
    values: &[u128],
    state: &State,
) -> Result<List<u128>, Memory>
    ensures { IfOk result (λ made. made ≡ by.all_by values.now state.now.mems names.now) }
{
    let mut made = Vec::new(alloc);
    for name in names {
        put_place(&mut made, name.place, values, state)?;
    }
    Ok(List::from_vec(made))
}
