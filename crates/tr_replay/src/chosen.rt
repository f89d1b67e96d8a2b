//! What is free in a run, and the inputs that it makes.

ghost use Rattle.std.specs.Prelude.{◌≡◌, [], slice_index, slice_index_or, IfOk};
ghost use Rattle.wn_run.specs.Runs.{by_kind, inputs_from, reset_at};

use fv_text::{List, Memory};
use std::alloc::Global;
use wn_net::{Input, InputKind};

/// What is free in a run: numbers, by those of inputs, registers and memories. Past the end of a list it is 0.
#[derive(Debug, Drop)]
pub struct Chosen {
    /// In each cycle that of each input which may change in it.
    pub each_cycle: List<List<u128>>,
    /// That of each input which is chosen once.
    pub once: List<u128>,
    /// What each free register begins with.
    pub regs: List<u128>,
    /// Of each memory what each free word begins with.
    pub words: List<List<u128>>,
}

pub(crate) fn number_at(numbers: &[u128], index: usize) -> u128
    ensures { result ≡ slice_index numbers.now index }
{
    match numbers.get(index) {
        Some(number) => *number,
        None => 0,
    }
}

pub(crate) fn row_at(rows: &[List<u128>], index: usize) -> &[u128]
    ensures { result.now ≡ slice_index_or rows.now index [] }
{
    match rows.get(index) {
        Some(row) => row.as_slice(),
        None => &[],
    }
}

/// The number of an input in a cycle.
fn number_of(kind: InputKind, cycle: u64, each: u128, once: u128) -> u128
    ensures { result ≡ by_kind each once (reset_at cycle) kind }
{
    match kind {
        InputKind::EachCycle => each,
        InputKind::Once => once,
        InputKind::Reset => { if cycle == 0 { 1 } else { 0 } }
    }
}

/// The numbers of the inputs in a cycle.
#[tactic(auto, using(crate::proofs::Each::inputs_step, crate::proofs::Each::inputs_end))]
pub(crate) fn inputs_of(
    alloc: Global,
    inputs: &[Input],
    cycle: u64,
    each: &[u128],
    once: &[u128],
) -> Result<Vec<u128>, Memory>
    ensures { IfOk result (λ made. made.items
        ≡ inputs_from (slice_index each.now) (slice_index once.now) (reset_at cycle) 0 inputs.now) }
{
    let mut made = Vec::new(alloc);
    for (index, input) in inputs.iter().enumerate() {
        let number = number_of(
            input.kind,
            cycle,
            number_at(each, index),
            number_at(once, index),
        );
        made.push(number)?;
    }
    Ok(made)
}
