//! What registers and memories have in the next cycle.
ghost use Rattle.std.specs.Prelude.{
  ◌≡◌,
  ℕ,
  ◌+◌,
  ◌<◌,
  ◌≤◌,
  ◌^◌,
  length,
  map,
  slice_index,
  slice_set,
  List,
};
ghost use Rattle.std.specs.List.{AllByRecursion};
ghost use Rattle.wn_net.specs.Value.{word_at, words_at};
ghost use Rattle.wn_net.specs.Next as spec;
ghost use Rattle.wn_net.specs.Next.{IsWriteIn, IsMemIn};

use crate::parts::{Mem, MemWrite, Reg};
use crate::value::{at, number_at};
use fv_bits::masked;
use fv_text::List;

/// Puts the number at the place.
fn set_number(numbers: &mut List<u128>, index: usize, number: u128)
    requires { index < length numbers.old }
    ensures { numbers.new ≡ slice_set numbers.old index number }
{
    if let Some(place) = numbers.get_mut(index) {
        *place = number;
    }
}

/// Gives each register the value of its next node.
pub(crate) fn move_regs(regs: &[Reg], values: &[u128], numbers: &mut List<u128>)
    requires each { length numbers.old ≡ length regs.now }
    requires next { AllByRecursion (λ r. r.next < length values.now) regs.now }
    ensures { numbers.new ≡ map (λ r. slice_index values.now r.next) regs.now }
{
    for (index, reg) in regs.iter().enumerate() {
        set_number(numbers, index, at(values, &reg.next));
    }
}

/// Does one write.
fn do_write(words: &mut List<u128>, width: u32, write: &MemWrite, values: &[u128])
    requires few { width ≤ 128 }
    requires write { IsWriteIn values.now width write.now }
    requires words { (i : ℕ) → word_at words.old i < 2 ^ width }
    ensures value { words.new ≡ spec.write values.now width words.old write.now }
    ensures words { (i : ℕ) → word_at words.new i < 2 ^ width }
{
    if at(values, &write.enable) != 1 {
        return;
    }
    let address = at(values, &write.addr);
    if address >= words.len() as u128 {
        return;
    }
    let word = masked(
        width,
        at(values, &write.mask),
        number_at(words, address),
        at(values, &write.value),
    );
    set_number(words, address as usize, word);
}

/// Does all writes, one after the other.
fn do_writes(words: &mut List<u128>, mem: &Mem, values: &[u128])
    requires few { mem.now.width ≤ 128 }
    requires writes { AllByRecursion (IsWriteIn values.now mem.now.width) mem.now.writes }
    requires words { (i : ℕ) → word_at words.old i < 2 ^ mem.now.width }
    ensures { words.new ≡ spec.write_each values.now mem.now.width words.old mem.now.writes }
{
    for write in mem.writes.as_slice() {
        do_write(words, mem.width, write, values);
    }
}

/// Does the writes of the memory at the place.
fn move_mem(mems: &mut List<List<u128>>, index: usize, mem: &Mem, values: &[u128])
    requires there { index < length mems.old }
    requires few { mem.now.width ≤ 128 }
    requires writes { AllByRecursion (IsWriteIn values.now mem.now.width) mem.now.writes }
    requires words { (i : ℕ) → word_at (words_at mems.old index) i < 2 ^ mem.now.width }
    ensures { mems.new ≡ slice_set mems.old index
        (spec.write_each values.now mem.now.width (words_at mems.old index) mem.now.writes) }
{
    if let Some(words) = mems.get_mut(index) {
        do_writes(words, mem, values);
    }
}

/// Does the writes of each memory.
pub(crate) fn move_mems(mems: &[Mem], values: &[u128], numbers: &mut List<List<u128>>)
    requires each { length numbers.old ≡ length mems.now }
    requires writes { AllByRecursion (IsMemIn values.now) mems.now }
    requires words { (m i : ℕ) → word_at (words_at numbers.old m) i < 2 ^ slice_index
        (map (λ m. m.width) mems.now) m }
    ensures { numbers.new ≡ spec.next_mems values.now mems.now numbers.old }
{
    for (index, mem) in mems.iter().enumerate() {
        move_mem(numbers, index, mem, values);
    }
}
