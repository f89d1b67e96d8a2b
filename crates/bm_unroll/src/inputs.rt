//! The inputs of each cycle.
ghost use Rattle.std.specs.Prelude.{◌≡◌, ℕ, ◌+◌, ◌*◌, ◌-◌, ◌<◌, ◌≤◌, ◌^◌};
ghost use Rattle.std.specs.Prelude.{◌++◌, ◌∷◌, [], length, None, Some, map};
ghost use Rattle.std.specs.Prelude.{slice_get, slice_index, slice_index_or};
ghost use Rattle.std.specs.Prelude.{IfOk, IfSome, OnOk};
ghost use Rattle.std.specs.List.{AllByRecursion};
ghost use Rattle.wn_net.specs.declared.parts.InputKind.TheVariants as kind;
ghost use Rattle.wn_net.specs.Width.{IsWidth};
ghost use Rattle.wn_net.specs.Net.{Netlist, shape_of};
ghost use Rattle.wn_run.specs.Runs.{by_kind, reset_at};
ghost use Rattle.bm_unroll.specs.Draft.{Extends, HasRoom, HasRows, IsDraft, Means};

use crate::draft::Draft;
use crate::frames::Source;
use fv_text::{List, Memory};
use std::alloc::Global;
use wn_net::{Input, InputKind, Net, NodeId};

/// What stands for an input that is chosen once: the node of the cycle before, where there is one.
fn once_node(
    draft: &mut Draft,
    input: &Input,
    index: u32,
    before: Option<NodeId>,
) -> Result<NodeId, Memory>
    requires width { IsWidth input.now.width }
    requires room { HasRoom draft.old 1 }
    requires before { IfSome before (Means draft.old input.now.width (λ ch. ch.once index)) }
    ensures extends { OnOk result (Extends draft.old draft.new 1) }
    ensures means { IfOk result (Means draft.new input.now.width (λ ch. ch.once index)) }
    ensures draft { OnOk result ((net : Netlist) (last bound more : ℕ) → IsDraft net last bound draft.old
        → slice_get (map (λ x. x.kind) net.inputs) index ≡ Some kind.Once
        → input.now.width ≡ slice_index (shape_of net).inputs index
        → (before ≡ None → bound ≤ 2 ^ 66 + index) → bound ≤ more → 2 ^ 66 + index < more
        → IsDraft net last more draft.new) }
{
    match before {
        Some(id) => Ok(id),
        None => {
            let id = draft.source(Source::Once(index), input.width)?;
            Ok(id)
        }
    }
}

/// What stands for an input in a cycle, by what stands for it in the cycle before.
fn input_node(
    draft: &mut Draft,
    input: &Input,
    index: u32,
    cycle: u32,
    before: Option<NodeId>,
) -> Result<NodeId, Memory>
    requires width { IsWidth input.now.width }
    requires room { HasRoom draft.old 1 }
    requires before { IfSome before (λ id. input.now.kind ≡ kind.Once
        → Means draft.old input.now.width (λ ch. ch.once index) id) }
    requires first { before ≡ None → cycle ≡ 0 }
    ensures extends { OnOk result (Extends draft.old draft.new 1) }
    ensures means { IfOk result (Means draft.new input.now.width
        (λ ch. by_kind (ch.each_cycle cycle index) (ch.once index) (reset_at cycle) input.now.kind)) }
    ensures draft { OnOk result ((net : Netlist) (last bound : ℕ) → IsDraft net last bound draft.old
        → slice_get net.inputs index ≡ Some input.now → cycle ≤ last
        → bound ≤ 2 ^ 66 + cycle * 2 ^ 32 + index
        → IsDraft net last (2 ^ 66 + cycle * 2 ^ 32 + index + 1) draft.new) }
{
    match input.kind {
        InputKind::EachCycle => {
            let each = draft.source(Source::Each(index, cycle), input.width)?;
            Ok(each)
        }
        InputKind::Once => {
            let once = once_node(draft, input, index, before)?;
            Ok(once)
        }
        InputKind::Reset => {
            let reset = draft.known(input.width, u128::from(cycle == 0))?;
            Ok(reset)
        }
    }
}

/// The node at a place of the last row, where there is one.
fn node_before(rows: &[List<NodeId>], index: usize) -> Option<NodeId>
    requires { AllByRecursion (λ row. index < length row) rows.now }
    ensures none { result ≡ None → length rows.now ≡ 0 }
    ensures some { IfSome result (λ id. (1 ≤ length rows.now)
        × (id ≡ slice_index (slice_index_or rows.now (length rows.now - 1) []) index)) }
{
    let count = rows.len();
    if count == 0 {
        return None;
    }
    let last = count - 1;
    let row = &rows[last];
    let ids = row.as_slice();
    Some(ids[index])
}

/// What stands for the inputs in a cycle, by the rows of the cycles before.
fn input_row(
    alloc: Global,
    draft: &mut Draft,
    net: &Net,
    cycle: u32,
    rows: &[List<NodeId>],
) -> Result<List<NodeId>, Memory>
    requires few { length net.now.inputs ≤ 1000000 }
    requires room { HasRoom draft.old 1000000 }
    requires count { length rows.now ≡ cycle }
    requires rows { HasRows net.now draft.old rows.now }
    ensures extends { OnOk result (Extends draft.old draft.new 1000000) }
    ensures row { IfOk result (λ row. HasRows net.now draft.new (rows.now ++ row ∷ [])) }
    ensures draft { OnOk result ((last bound : ℕ) → IsDraft net.now last bound draft.old
        → cycle ≤ last → bound ≤ 2 ^ 66 + cycle * 2 ^ 32
        → IsDraft net.now last (2 ^ 66 + (cycle + 1) * 2 ^ 32) draft.new) }
{
    let mut made = Vec::with_capacity(alloc, net.inputs().len())?;
    for (index, input) in net.inputs().iter().enumerate() {
        let before = node_before(rows, index);
        let id = input_node(draft, input, index as u32, cycle, before)?;
        made.push(id)?;
    }
    Ok(List::from_vec(made))
}

/// What stands for the inputs in each cycle up to one.
pub(crate) fn input_rows(
    alloc: Global,
    draft: &mut Draft,
    net: &Net,
    cycle: u32,
) -> Result<Vec<List<NodeId>>, Memory>
    requires few { length net.now.inputs ≤ 1000000 }
    requires room { HasRoom draft.old 101000000 }
    requires cycle { cycle ≤ 100 }
    ensures extends { OnOk result (Extends draft.old draft.new 101000000) }
    ensures each { IfOk result (λ rows. length rows.items ≡ cycle + 1) }
    ensures rows { IfOk result (λ rows. HasRows net.now draft.new rows.items) }
    ensures draft { OnOk result (IsDraft net.now cycle (2 ^ 66) draft.old
        → IsDraft net.now cycle (2 ^ 66 + (cycle + 1) * 2 ^ 32) draft.new) }
{
    let mut made = Vec::with_capacity(alloc, cycle as usize + 1)?;
    for number in 0..cycle + 1 {
        let done = made.as_slice();
        let row = input_row(alloc, draft, net, number, done)?;
        made.push(row)?;
    }
    Ok(made)
}
