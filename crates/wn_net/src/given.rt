//! The test that numbers are those of a cycle.
ghost use Rattle.std.specs.Prelude.{◌≡◌, ℕ, ◌<◌, ◌^◌, length, map, slice_index, IsTrue, ◌↔◌};
ghost use Rattle.wn_net.specs.Value.{word_at, words_at};
ghost use Rattle.wn_net.specs.Given.{AreNumbersOf, AreMemsOf, IsGiven, HasWords, given};

use crate::net::Net;
use crate::parts::{Input, Mem, Reg, State};
use fv_bits::fits;
use fv_text::List;

fn inputs_fit(inputs: &[Input], numbers: &[u128]) -> bool
    ensures { IsTrue result ↔ AreNumbersOf (map (λ i. i.width) inputs.now) numbers.now }
{
    if numbers.len() != inputs.len() {
        return false;
    }
    for (index, input) in inputs.iter().enumerate() {
        if !fits(input.width, numbers[index]) {
            return false;
        }
    }
    true
}

fn regs_fit(regs: &[Reg], numbers: &[u128]) -> bool
    ensures { IsTrue result ↔ AreNumbersOf (map (λ r. r.width) regs.now) numbers.now }
{
    if numbers.len() != regs.len() {
        return false;
    }
    for (index, reg) in regs.iter().enumerate() {
        if !fits(reg.width, numbers[index]) {
            return false;
        }
    }
    true
}

fn words_fit(mem: &Mem, words: &[u128]) -> bool
    ensures { IsTrue result ↔ HasWords mem.now words.now }
{
    if words.len() != mem.words as usize {
        return false;
    }
    for word in words {
        if !fits(mem.width, *word) {
            return false;
        }
    }
    true
}

fn mems_fit(mems: &[Mem], numbers: &[List<u128>]) -> bool
    ensures { IsTrue result ↔ AreMemsOf mems.now numbers.now }
{
    if numbers.len() != mems.len() {
        return false;
    }
    for (index, mem) in mems.iter().enumerate() {
        let words = &numbers[index];
        if !words_fit(mem, words.as_slice()) {
            return false;
        }
    }
    true
}

impl Net {
    /// Whether the numbers are those of a cycle of this net.
    pub fn admits(&self, inputs: &[u128], state: &State) -> bool
        ensures { IsTrue result ↔ IsGiven self.now (given inputs.now state.now) }
    {
        inputs_fit(self.inputs.as_slice(), inputs)
            && regs_fit(self.regs.as_slice(), state.regs.as_slice())
            && mems_fit(self.mems.as_slice(), state.mems.as_slice())
    }
}
