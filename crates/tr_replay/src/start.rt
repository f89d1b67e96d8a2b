//! What a run begins with.

ghost use Rattle.std.specs.Prelude.{◌≡◌, [], slice_index, slice_index_or, IfOk};
ghost use Rattle.wn_run.specs.Runs.{start_number, regs_from, words_from, mems_from, start_of};
ghost use Rattle.tr_replay.specs.Traces.{choices_of};

use crate::chosen::{Chosen, number_at, row_at};
use fv_text::{List, Memory};
use std::alloc::Global;
use wn_net::{Init, Mem, Net, Reg, State};

fn number_of(choice: u128, init: Init) -> u128
    ensures { result ≡ start_number choice init }
{
    match init {
        Init::Free => choice,
        Init::Known(number) => number,
    }
}

#[tactic(auto, using(crate::proofs::Each::regs_step, crate::proofs::Each::regs_end))]
fn regs_of(alloc: Global, regs: &[Reg], choices: &[u128]) -> Result<List<u128>, Memory>
    ensures { IfOk result (λ made. made ≡ regs_from (slice_index choices.now) 0 regs.now) }
{
    let mut made = List::new(alloc);
    for (index, reg) in regs.iter().enumerate() {
        made.push(number_of(number_at(choices, index), reg.init))?;
    }
    Ok(made)
}

#[tactic(auto, using(crate::proofs::Each::words_step, crate::proofs::Each::words_end))]
fn words_of(alloc: Global, inits: &[Init], choices: &[u128]) -> Result<List<u128>, Memory>
    ensures { IfOk result (λ made. made ≡ words_from (slice_index choices.now) 0 inits.now) }
{
    let mut made = List::new(alloc);
    for (index, init) in inits.iter().enumerate() {
        made.push(number_of(number_at(choices, index), *init))?;
    }
    Ok(made)
}

#[tactic(auto, using(crate::proofs::Each::mems_step, crate::proofs::Each::mems_end))]
fn mems_of(alloc: Global, mems: &[Mem], choices: &[List<u128>]) -> Result<List<List<u128>>, Memory>
    ensures { IfOk result (λ made. made
        ≡ mems_from (λ m. slice_index (slice_index_or choices.now m [])) 0 mems.now) }
{
    let mut made = List::new(alloc);
    for (index, mem) in mems.iter().enumerate() {
        let words = words_of(alloc, mem.init.as_slice(), row_at(choices, index))?;
        made.push(words)?;
    }
    Ok(made)
}

/// The state of the first cycle.
pub(crate) fn start_of(alloc: Global, net: &Net, chosen: &Chosen) -> Result<State, Memory>
    ensures { IfOk result (λ state. state ≡ start_of net.now (choices_of chosen.now)) }
{
    let regs = regs_of(alloc, net.regs(), chosen.regs.as_slice())?;
    let mems = mems_of(alloc, net.mems(), chosen.words.as_slice())?;
    Ok(State { regs, mems })
}
