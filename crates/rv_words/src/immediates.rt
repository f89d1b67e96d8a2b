//! The immediates of each form.
#![tactic(auto, using(wn_net::proofs::Laws::additions, crate::proofs::JoinLemmas::immediates))]

ghost use Rattle.std.specs.Prelude.{◌≡◌, IfOk};
ghost use Rattle.rv_table.specs.Immediates as immediates;
ghost use Rattle.wn_net.specs.Net.{IsNodeOf, value_at};
ghost use Rattle.wn_net.specs.Changes.{AddsNodes, Shows};
ghost use Rattle.rv_words.specs.Parts as parts;

use crate::fields::{beside, field, raised, sign_extended};
use fv_text::Memory;
use wn_net::{Net, NodeId};

#[tactic(auto, using(wn_net::proofs::Laws::additions), unfolding(rv_table::specs::Immediates::i_immediate))]
pub fn i_immediate(net: &mut Net, word: NodeId) -> Result<NodeId, Memory>
    requires { IsNodeOf net.old 32 word }
    ensures adds { AddsNodes net.old net.new }
    ensures shows { IfOk result (Shows net.old net.new 32
        (λ g. immediates.i_immediate (value_at net.old g word))) }
{
    let bits = field(net, word, 31, 20)?;
    let immediate = sign_extended(net, bits, 12)?;
    Ok(immediate)
}

#[tactic(auto, using(wn_net::proofs::Laws::additions), unfolding(rv_table::specs::Immediates::s_immediate))]
pub fn s_immediate(net: &mut Net, word: NodeId) -> Result<NodeId, Memory>
    requires { IsNodeOf net.old 32 word }
    ensures adds { AddsNodes net.old net.new }
    ensures shows { IfOk result (Shows net.old net.new 32
        (λ g. immediates.s_immediate (value_at net.old g word))) }
{
    let front = field(net, word, 31, 25)?;
    let bits = beside(net, front, 7, word, 11, 7)?;
    let immediate = sign_extended(net, bits, 12)?;
    Ok(immediate)
}

fn branch_bits(net: &mut Net, word: NodeId) -> Result<NodeId, Memory>
    requires { IsNodeOf net.old 32 word }
    ensures adds { AddsNodes net.old net.new }
    ensures shows { IfOk result (Shows net.old net.new 12 (λ g. parts.branch_bits (value_at net.old g word))) }
{
    let sign = field(net, word, 31, 31)?;
    let two = beside(net, sign, 1, word, 7, 7)?;
    let eight = beside(net, two, 2, word, 30, 25)?;
    let bits = beside(net, eight, 8, word, 11, 8)?;
    Ok(bits)
}

pub fn b_immediate(net: &mut Net, word: NodeId) -> Result<NodeId, Memory>
    requires { IsNodeOf net.old 32 word }
    ensures adds { AddsNodes net.old net.new }
    ensures shows { IfOk result (Shows net.old net.new 32
        (λ g. immediates.b_immediate (value_at net.old g word))) }
{
    let bits = branch_bits(net, word)?;
    let offset = raised(net, bits, 12, 1)?;
    let immediate = sign_extended(net, offset, 13)?;
    Ok(immediate)
}

pub fn u_immediate(net: &mut Net, word: NodeId) -> Result<NodeId, Memory>
    requires { IsNodeOf net.old 32 word }
    ensures adds { AddsNodes net.old net.new }
    ensures shows { IfOk result (Shows net.old net.new 32
        (λ g. immediates.u_immediate (value_at net.old g word))) }
{
    let bits = field(net, word, 31, 12)?;
    let immediate = raised(net, bits, 20, 12)?;
    Ok(immediate)
}

fn jump_bits(net: &mut Net, word: NodeId) -> Result<NodeId, Memory>
    requires { IsNodeOf net.old 32 word }
    ensures adds { AddsNodes net.old net.new }
    ensures shows { IfOk result (Shows net.old net.new 20 (λ g. parts.jump_bits (value_at net.old g word))) }
{
    let sign = field(net, word, 31, 31)?;
    let nine = beside(net, sign, 1, word, 19, 12)?;
    let ten = beside(net, nine, 9, word, 20, 20)?;
    let bits = beside(net, ten, 10, word, 30, 21)?;
    Ok(bits)
}

pub fn j_immediate(net: &mut Net, word: NodeId) -> Result<NodeId, Memory>
    requires { IsNodeOf net.old 32 word }
    ensures adds { AddsNodes net.old net.new }
    ensures shows { IfOk result (Shows net.old net.new 32
        (λ g. immediates.j_immediate (value_at net.old g word))) }
{
    let bits = jump_bits(net, word)?;
    let offset = raised(net, bits, 20, 1)?;
    let immediate = sign_extended(net, offset, 21)?;
    Ok(immediate)
}
