ghost use Rattle.std.specs.Prelude.{◌≡◌, ◌<◌};
ghost use Rattle.rv_table.specs.Agree as agree;

use crate::field::field;
use crate::retire::{Effect, Retire};

/// The retirement is one that the effect allows.
#[tactic(auto, unfolding(crate::specs::Agree::agrees))]
pub fn agrees(retire: &Retire, effect: &Effect) -> bool
    ensures { result ≡ agree.agrees retire.now effect.now }
{
    source_agrees(effect.rs1_addr, retire.rs1_addr, retire.rs1_rdata)
        && source_agrees(effect.rs2_addr, retire.rs2_addr, retire.rs2_rdata)
        && retire.trap == effect.trap
        && (effect.trap || results_agree(retire, effect))
}

/// A source that is read is the given one, and a given x0 is 0.
fn source_agrees(wanted: u32, address: u32, value: u32) -> bool
    ensures { result ≡ agree.source_agrees wanted address value }
{
    (wanted == 0 || wanted == address) && (address != 0 || value == 0)
}

fn results_agree(retire: &Retire, effect: &Effect) -> bool
    ensures { result ≡ agree.results_agree retire.now effect.now }
{
    retire.rd_addr == effect.rd_addr
        && retire.rd_wdata == effect.rd_wdata
        && retire.pc_wdata == effect.pc_wdata
        && address_agrees(retire, effect)
        && bytes_agree(retire, effect)
}

fn address_agrees(retire: &Retire, effect: &Effect) -> bool
    ensures { result ≡ agree.address_agrees retire.now effect.now }
{
    effect.rmask == 0 && effect.wmask == 0 || retire.mem_addr == effect.mem_addr
}

fn bytes_agree(retire: &Retire, effect: &Effect) -> bool
    ensures { result ≡ agree.bytes_agree retire.now effect.now }
{
    byte_agrees(retire, effect, 0)
        && byte_agrees(retire, effect, 1)
        && byte_agrees(retire, effect, 2)
        && byte_agrees(retire, effect, 3)
}

fn byte_agrees(retire: &Retire, effect: &Effect, index: u32) -> bool
    requires { index < 4 }
    ensures { result ≡ agree.byte_agrees retire.now effect.now index }
{
    written_agrees(retire, effect, index)
        && (!has_byte(effect.rmask, index) || has_byte(retire.mem_rmask, index))
}

/// A byte that is to be written is, with its value; a further one keeps what was read.
fn written_agrees(retire: &Retire, effect: &Effect, index: u32) -> bool
    requires { index < 4 }
    ensures { result ≡ agree.written_agrees retire.now effect.now index }
{
    if has_byte(effect.wmask, index) {
        has_byte(retire.mem_wmask, index)
            && byte(retire.mem_wdata, index) == byte(effect.wdata, index)
    } else {
        !has_byte(retire.mem_wmask, index) || keeps(retire, index)
    }
}

fn keeps(retire: &Retire, index: u32) -> bool
    requires { index < 4 }
    ensures { result ≡ agree.keeps retire.now index }
{
    has_byte(retire.mem_rmask, index)
        && byte(retire.mem_wdata, index) == byte(retire.mem_rdata, index)
}

/// The mask, one bit for each of the four bytes of a word, has the byte.
pub fn has_byte(mask: u32, index: u32) -> bool
    requires { index < 4 }
    ensures { result ≡ agree.has mask index }
{
    field(mask, index, index) == 1
}

/// The byte of a word, the lowest first.
pub fn byte(word: u32, index: u32) -> u32
    requires { index < 4 }
    ensures { result ≡ agree.byte index word }
{
    field(word, 8 * index + 7, 8 * index)
}
