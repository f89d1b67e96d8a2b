ghost use Rattle.std.specs.Prelude.{
  ◌≡◌,
  ◌+◌,
  ◌-◌,
  ◌*◌,
  ◌/◌,
  ◌%◌,
  ◌^◌,
  ◌<◌,
  ◌≤◌,
  not,
  ◌==◌,
  ◌&&◌,
};
ghost use Rattle.rv_table.specs.Arithmetic.{sum};
ghost use Rattle.rv_table.specs.Immediates.{i_immediate};
ghost use Rattle.rv_table.specs.Effect as effect;

use crate::field::{b_immediate, field, i_immediate, s_immediate};
use crate::pattern::Form;
use crate::retire::{Effect, Opts, Retire};

impl Form {
    fn reads_first(self) -> bool
        ensures { result ≡ effect.reads_first self }
    {
        match self {
            Form::R | Form::I | Form::S | Form::B => true,
            Form::U | Form::J => false,
        }
    }

    fn reads_second(self) -> bool
        ensures { result ≡ effect.reads_second self }
    {
        match self {
            Form::R | Form::S | Form::B => true,
            Form::I | Form::U | Form::J => false,
        }
    }

    fn writes(self) -> bool
        ensures { result ≡ effect.writes self }
    {
        match self {
            Form::R | Form::I | Form::U | Form::J => true,
            Form::S | Form::B => false,
        }
    }
}

fn where_there(there: bool, number: u32) -> u32
    ensures { result ≡ effect.where_there there number }
{
    if there { number } else { 0 }
}

fn unless_x0(address: u32, value: u32) -> u32
    ensures { result ≡ effect.unless_x0 address value }
{
    if address == 0 { 0 } else { value }
}

/// An instruction as it finds its sources: its word, its length in bytes, the addresses and values of its registers,
/// and the word that memory gave.
#[derive(Debug, Clone, Copy, PartialEq, Eq)]
pub struct Step {
    pub word: u32,
    pub length: u32,
    pub rs1_addr: u32,
    pub rs2_addr: u32,
    pub rd_addr: u32,
    pub s1: u32,
    pub s2: u32,
    pub pc: u32,
    pub mem_rdata: u32,
    pub opts: Opts,
}

impl Step {
    #[tactic(auto, unfolding(crate::specs::Effect::step))]
    pub(crate) fn new(form: Form, word: u32, length: u32, retire: &Retire, opts: Opts) -> Step
        ensures { result ≡ effect.step form word length retire.now opts }
    {
        let rs1_addr = where_there(form.reads_first(), field(word, 19, 15));
        let rs2_addr = where_there(form.reads_second(), field(word, 24, 20));
        Step {
            word,
            length,
            rs1_addr,
            rs2_addr,
            rd_addr: where_there(form.writes(), field(word, 11, 7)),
            s1: unless_x0(rs1_addr, retire.rs1_rdata),
            s2: unless_x0(rs2_addr, retire.rs2_rdata),
            pc: retire.pc_rdata,
            mem_rdata: retire.mem_rdata,
            opts,
        }
    }

    /// rd gets the value; the next instruction follows.
    #[tactic(auto, unfolding(crate::specs::Effect::gives))]
    pub(crate) fn gives(&self, value: u32) -> Effect
        ensures { result ≡ effect.gives self.now value }
    {
        Effect {
            rs1_addr: self.rs1_addr,
            rs2_addr: self.rs2_addr,
            rd_addr: self.rd_addr,
            rd_wdata: unless_x0(self.rd_addr, value),
            pc_wdata: self.next(),
            mem_addr: 0,
            rmask: 0,
            wmask: 0,
            wdata: 0,
            trap: false,
        }
    }

    fn next(&self) -> u32
        ensures { result ≡ effect.next self.now }
    {
        self.pc.wrapping_add(self.length)
    }

    /// rd gets the next address; the target follows.
    #[tactic(auto, unfolding(crate::specs::Effect::jumps))]
    pub(crate) fn jumps(&self, target: u32) -> Effect
        ensures { result ≡ effect.jumps self.now target }
    {
        self.goes_to(target, self.gives(self.next()))
    }

    #[tactic(auto, unfolding(crate::specs::Effect::branches))]
    pub(crate) fn branches(&self, taken: bool) -> Effect
        ensures { result ≡ effect.branches self.now taken }
    {
        if taken {
            self.goes_to(self.pc.wrapping_add(b_immediate(self.word)), self.gives(0))
        } else {
            self.gives(0)
        }
    }

    fn goes_to(&self, target: u32, old: Effect) -> Effect
        ensures { result ≡ effect.goes_to self.now target old }
    {
        let mut moved = old;
        moved.pc_wdata = target;
        moved.trap = self.is_misaligned_target(target);
        moved
    }

    fn is_misaligned_target(&self, target: u32) -> bool
        ensures { result ≡ effect.is_misaligned_target self.now target }
    {
        !self.opts.c && target % 4 != 0
    }

    fn word_address(&self, address: u32) -> u32
        ensures { result ≡ effect.word_address self.now address }
    {
        if self.opts.aligned {
            address - address % 4
        } else {
            address
        }
    }

    fn place_in_word(&self, address: u32) -> u32
        ensures value { result ≡ effect.place_in_word self.now address }
        ensures small { result < 4 }
    {
        if self.opts.aligned { address % 4 } else { 0 }
    }

    fn is_misaligned(&self, size: u32, address: u32) -> bool
        requires { 0 < size }
        ensures { result ≡ effect.is_misaligned self.now size address }
    {
        self.opts.aligned && address % size != 0
    }

    fn load_address(&self) -> u32
        ensures { result ≡ sum self.now.s1 (i_immediate self.now.word) }
    {
        self.s1.wrapping_add(i_immediate(self.word))
    }

    /// The bytes of a load, as a number.
    pub(crate) fn loaded(&self, size: u32) -> u32
        requires some { 0 < size }
        requires most { size ≤ 4 }
        ensures value { result ≡ effect.loaded self.now size }
        ensures small { result < 2 ^ (8 * size) }
    {
        bytes_from(
            size,
            self.place_in_word(self.load_address()),
            self.mem_rdata,
        )
    }

    /// rd gets the value; the bytes at s1 plus the immediate are read.
    #[tactic(auto, unfolding(crate::specs::Effect::loads))]
    pub(crate) fn loads(&self, size: u32, value: u32) -> Effect
        requires some { 0 < size }
        requires most { size ≤ 4 }
        ensures { result ≡ effect.loads self.now size value }
    {
        let address = self.load_address();
        let mut effect = self.gives(value);
        effect.mem_addr = self.word_address(address);
        effect.rmask = mask_at(size, self.place_in_word(address));
        effect.trap = self.is_misaligned(size, address);
        effect
    }

    /// The low bytes of s2 are written to s1 plus the immediate.
    #[tactic(auto, unfolding(crate::specs::Effect::stores))]
    pub(crate) fn stores(&self, size: u32) -> Effect
        requires some { 0 < size }
        requires most { size ≤ 4 }
        ensures { result ≡ effect.stores self.now size }
    {
        let address = self.s1.wrapping_add(s_immediate(self.word));
        let place = self.place_in_word(address);
        let mut effect = self.gives(0);
        effect.mem_addr = self.word_address(address);
        effect.wmask = mask_at(size, place);
        effect.wdata = bytes_to(size, place, self.s2);
        effect.trap = self.is_misaligned(size, address);
        effect
    }
}

/// One bit for each byte, cut to the four bytes of a word.
#[tactic(auto, using(crate::proofs::EffectLemmas::bytes))]
fn mask_at(size: u32, place: u32) -> u32
    requires most { size ≤ 4 }
    requires within { place < 4 }
    ensures { result ≡ effect.mask_at size place }
{
    (((1 << size) - 1) << place) % 16
}

/// So many bytes of the word, from the place on.
#[tactic(auto, using(crate::proofs::EffectLemmas::bytes))]
fn bytes_from(size: u32, place: u32, word: u32) -> u32
    requires most { size ≤ 4 }
    requires within { place < 4 }
    ensures value { result ≡ effect.bytes_from size place word }
    ensures small { result < 2 ^ (8 * size) }
{
    (u64::from(word >> (8 * place)) % (1 << (8 * size))) as u32
}

/// The low bytes of the word, put to the place.
#[tactic(auto, using(crate::proofs::EffectLemmas::bytes))]
fn bytes_to(size: u32, place: u32, word: u32) -> u32
    requires most { size ≤ 4 }
    requires within { place < 4 }
    ensures { result ≡ effect.bytes_to size place word }
{
    ((u64::from(word) % (1 << (8 * size))) as u32) << (8 * place)
}
