//! Loads and stores.
#![tactic(auto, using(crate::proofs::StepLemmas::steps))]

ghost use Rattle.std.specs.Prelude.{◌≡◌, true, ◌*◌, ◌<◌, ◌≤◌, ◌^◌, IfOk};
ghost use Rattle.rv_table.specs.Arithmetic.{sum};
ghost use Rattle.rv_table.specs.Immediates as immediates;
ghost use Rattle.rv_table.specs.Effect as effect;
ghost use Rattle.wn_net.specs.Net.{IsNodeOf, value_at};
ghost use Rattle.wn_net.specs.Changes.{AddsNodes, Shows};
ghost use Rattle.rv_words.specs.Nodes.{AreStep, step_at};
ghost use Rattle.rv_words.specs.Parts.{is_size};
ghost use Rattle.rv_rows.specs.Access.{ShowsAccess};
ghost use Rattle.rv_rows.specs.Effects.{ShowsEffect};

use crate::kinds::gives;
use crate::outcome::OutcomeNodes;
use fv_text::Memory;
use rv_table::{LoadRow, StoreRow};
use rv_words::{
    StepNodes, bytes_from, bytes_to, extended, i_immediate, is_misaligned, mask_at, place_in_word,
    s_immediate, sum, word, word_address,
};
use wn_net::{Net, NodeId};

/// How an instruction reaches memory: where its bytes begin in the word, the word's address, the mask of its bytes,
/// and whether that traps.
#[derive(Debug, Clone, Copy, PartialEq, Eq)]
pub struct Access {
    pub place: NodeId,
    pub word: NodeId,
    pub mask: NodeId,
    pub trap: NodeId,
}

fn reach(net: &mut Net, step: &StepNodes, size: u32, address: NodeId) -> Result<Access, Memory>
    requires size { is_size size ≡ true }
    requires address { IsNodeOf net.old 32 address }
    ensures adds { AddsNodes net.old net.new }
    ensures shows { IfOk result (ShowsAccess net.old net.new step.now size address) }
{
    let place = place_in_word(net, step, address)?;
    let mask = mask_at(net, size, place)?;
    let word = word_address(net, step, address)?;
    let trap = is_misaligned(net, step, size, address)?;
    Ok(Access {
        place,
        word,
        mask,
        trap,
    })
}

/// In bytes.
fn load_size(row: LoadRow) -> u32
    ensures value { result ≡ effect.load_size row }
    ensures size { is_size result ≡ true }
{
    match row {
        LoadRow::Lb | LoadRow::Lbu => 1,
        LoadRow::Lh | LoadRow::Lhu => 2,
        LoadRow::Lw => 4,
    }
}

/// In bytes.
fn store_size(row: StoreRow) -> u32
    ensures value { result ≡ effect.store_size row }
    ensures size { is_size result ≡ true }
{
    match row {
        StoreRow::Sb => 1,
        StoreRow::Sh => 2,
        StoreRow::Sw => 4,
    }
}

fn load_address(net: &mut Net, step: &StepNodes) -> Result<NodeId, Memory>
    requires { AreStep net.old step.now }
    ensures adds { AddsNodes net.old net.new }
    ensures shows { IfOk result (Shows net.old net.new 32
        (λ g. sum (value_at net.old g step.now.s1) (immediates.i_immediate (value_at net.old g step.now.word)))) }
{
    let offset = i_immediate(net, step.word)?;
    let address = sum(net, step.s1, offset)?;
    Ok(address)
}

fn store_address(net: &mut Net, step: &StepNodes) -> Result<NodeId, Memory>
    requires { AreStep net.old step.now }
    ensures adds { AddsNodes net.old net.new }
    ensures shows { IfOk result (Shows net.old net.new 32
        (λ g. sum (value_at net.old g step.now.s1) (immediates.s_immediate (value_at net.old g step.now.word)))) }
{
    let offset = s_immediate(net, step.word)?;
    let address = sum(net, step.s1, offset)?;
    Ok(address)
}

/// What a register gets of a load whose bytes begin at the place.
fn loaded(net: &mut Net, row: LoadRow, place: NodeId, word: NodeId) -> Result<NodeId, Memory>
    requires place { IsNodeOf net.old 2 place }
    requires word { IsNodeOf net.old 32 word }
    ensures adds { AddsNodes net.old net.new }
    ensures shows { IfOk result (Shows net.old net.new 32 (λ g. effect.extended row
        (effect.bytes_from (effect.load_size row) (value_at net.old g place) (value_at net.old g word)))) }
{
    let bytes = bytes_from(net, load_size(row), place, word)?;
    let value = extended(net, row, bytes)?;
    Ok(value)
}

/// rd gets the bytes at s1 plus the immediate.
#[tactic(auto, using(crate::proofs::StepLemmas::steps), unfolding(rv_table::specs::Effect::loads))]
pub(crate) fn loads(net: &mut Net, step: &StepNodes, row: LoadRow) -> Result<OutcomeNodes, Memory>
    requires { AreStep net.old step.now }
    ensures adds { AddsNodes net.old net.new }
    ensures shows { IfOk result (ShowsEffect net.old net.new (λ g. effect.loads (step_at net.old g step.now)
        (effect.load_size row)
        (effect.extended row (effect.loaded (step_at net.old g step.now) (effect.load_size row))))) }
{
    let address = load_address(net, step)?;
    let reached = reach(net, step, load_size(row), address)?;
    let value = loaded(net, row, reached.place, step.mem_rdata)?;
    let mut outcome = gives(net, step, value)?;
    outcome.mem_addr = reached.word;
    outcome.rmask = reached.mask;
    outcome.trap = reached.trap;
    Ok(outcome)
}

fn gives_nothing(net: &mut Net, step: &StepNodes) -> Result<OutcomeNodes, Memory>
    requires { AreStep net.old step.now }
    ensures adds { AddsNodes net.old net.new }
    ensures shows { IfOk result (ShowsEffect net.old net.new (λ g. effect.gives (step_at net.old g step.now) 0)) }
{
    let zero = word(net, 0)?;
    let outcome = gives(net, step, zero)?;
    Ok(outcome)
}

/// The low bytes of s2 are written to s1 plus the immediate.
#[tactic(auto, using(crate::proofs::StepLemmas::steps), unfolding(rv_table::specs::Effect::stores))]
pub(crate) fn stores(net: &mut Net, step: &StepNodes, row: StoreRow) -> Result<OutcomeNodes, Memory>
    requires { AreStep net.old step.now }
    ensures adds { AddsNodes net.old net.new }
    ensures shows { IfOk result (ShowsEffect net.old net.new
        (λ g. effect.stores (step_at net.old g step.now) (effect.store_size row))) }
{
    let address = store_address(net, step)?;
    let size = store_size(row);
    let reached = reach(net, step, size, address)?;
    let wdata = bytes_to(net, size, reached.place, step.s2)?;
    let mut outcome = gives_nothing(net, step)?;
    outcome.mem_addr = reached.word;
    outcome.wmask = reached.mask;
    outcome.wdata = wdata;
    outcome.trap = reached.trap;
    Ok(outcome)
}
