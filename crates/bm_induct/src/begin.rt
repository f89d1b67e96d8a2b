//! The inputs, registers and memories of a net, once more.
ghost use Rattle.std.specs.Prelude.{◌≡◌, ◌-◌, ◌<◌, ◌≤◌, ◌^◌, length, map, IfOk, OnOk};
ghost use Rattle.std.specs.List.{AllByRecursion};
ghost use Rattle.wn_net.specs.Width.{IsWidth};
ghost use Rattle.wn_net.specs.Changes.{with_mem};
ghost use Rattle.wn_net.specs.Net.{IsInitOf};
ghost use Rattle.bm_induct.specs.Rebuilt as spec;
ghost use Rattle.bm_induct.specs.Stages as stages;

use crate::how::Rebuild;
use fv_text::{List, Memory};
use std::alloc::Global;
use wn_net::{Init, Mem, Net};

/// The inputs of the net.
pub(crate) fn put_inputs(made: &mut Net, net: &Net) -> Result<(), Memory>
    requires { made.old ≡ stages.with_inputs net.now 0 }
    ensures { OnOk result (made.new ≡ stages.with_inputs net.now (length net.now.inputs)) }
{
    for own in net.inputs() {
        made.input(own.width, own.kind)?;
    }
    Ok(())
}

/// Its registers, each with its own node as the next one.
pub(crate) fn put_regs(made: &mut Net, net: &Net, how: Rebuild) -> Result<(), Memory>
    requires { made.old ≡ stages.with_regs how net.now 0 }
    ensures { OnOk result (made.new ≡ stages.with_regs how net.now (length net.now.regs)) }
{
    for own in net.regs() {
        let begins = how.start(own.init);
        made.reg(own.width, begins)?;
    }
    Ok(())
}

/// What words begin with.
fn starts(alloc: Global, how: Rebuild, words: &[Init]) -> Result<List<Init>, Memory>
    ensures { IfOk result (λ made. made ≡ map (spec.start_for how) words.now) }
{
    let mut made = List::new(alloc);
    for word in words {
        let begins = how.start(*word);
        made.push(begins)?;
    }
    Ok(made)
}

/// A memory without its writes.
fn put_mem(alloc: Global, made: &mut Net, how: Rebuild, own: &Mem) -> Result<(), Memory>
    requires width { IsWidth own.now.width }
    requires words { 1 ≤ own.now.words }
    requires each { length own.now.init ≡ own.now.words }
    requires init { AllByRecursion (IsInitOf own.now.width) own.now.init }
    requires room { length made.old.mems < 2 ^ 32 - 1 }
    ensures { OnOk result (made.new ≡ with_mem made.old (stages.begun_mem how own.now)) }
{
    let begins = starts(alloc, how, own.init.as_slice())?;
    made.mem(own.width, own.words, begins)?;
    Ok(())
}

/// Its memories, without their writes.
pub(crate) fn put_mems(alloc: Global, made: &mut Net, net: &Net, how: Rebuild) -> Result<(), Memory>
    requires { made.old ≡ stages.with_mems how net.now 0 }
    ensures { OnOk result (made.new ≡ stages.with_mems how net.now (length net.now.mems)) }
{
    for own in net.mems() {
        put_mem(alloc, made, how, own)?;
    }
    Ok(())
}
