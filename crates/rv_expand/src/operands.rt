//! The registers and the immediate of the word that a half word stands for, as nodes.
#![tactic(auto, using(wn_net::proofs::Laws::additions))]

ghost use Rattle.std.specs.Prelude.{◌≡◌, true, ◌<◌, ◌≤◌, ◌^◌, IfOk};
ghost use Rattle.rv_table.specs.Compressed as compressed;
ghost use Rattle.wn_net.specs.Net.{IsNodeOf, value_at};
ghost use Rattle.wn_net.specs.Changes.{AddsNodes, Shows};
ghost use Rattle.rv_expand.specs.Operands.{ShowsOperands};
ghost use Rattle.rv_expand.specs.Places as places;

use crate::half::{
    addi4spn_immediate, addi16sp_immediate, amount, branch_offset, far, jump_offset, lui_immediate,
    lwsp_offset, near_high, near_low, second, six, swsp_offset, word_offset,
};
use crate::place::{ImmediatePlace, Places, RegisterPlace};
use fv_text::Memory;
use rv_table::CompressedRow;
use rv_words::{constant, word};
use wn_net::{Net, NodeId};

/// The registers and the immediate of a word: nodes of five bits, and of 32.
#[derive(Debug, Clone, Copy, PartialEq, Eq)]
pub struct OperandNodes {
    pub rd: NodeId,
    pub rs1: NodeId,
    pub rs2: NodeId,
    pub immediate: NodeId,
}

/// The register that the half word has at the place.
#[tactic(auto, using(wn_net::proofs::Laws::additions, std::proofs::lemmas::Bool::Decides::nat_tests))]
fn register(net: &mut Net, half: NodeId, place: RegisterPlace) -> Result<NodeId, Memory>
    requires half { IsNodeOf net.old 32 half }
    requires place { places.is_register place ≡ true }
    ensures adds { AddsNodes net.old net.new }
    ensures shows { IfOk result (Shows net.old net.new 5
        (λ g. places.register_at place (value_at net.old g half))) }
{
    match place {
        RegisterPlace::Always(register) => constant(net, 5, register),
        RegisterPlace::Far => far(net, half),
        RegisterPlace::Second => second(net, half),
        RegisterPlace::NearHigh => near_high(net, half),
        RegisterPlace::NearLow => near_low(net, half),
    }
}

/// The immediate that the half word has at the place.
fn immediate(net: &mut Net, half: NodeId, place: ImmediatePlace) -> Result<NodeId, Memory>
    requires { IsNodeOf net.old 32 half }
    ensures adds { AddsNodes net.old net.new }
    ensures shows { IfOk result (Shows net.old net.new 32
        (λ g. places.immediate_at place (value_at net.old g half))) }
{
    match place {
        ImmediatePlace::Zero => word(net, 0),
        ImmediatePlace::Six => six(net, half),
        ImmediatePlace::Amount => amount(net, half),
        ImmediatePlace::Addi4spn => addi4spn_immediate(net, half),
        ImmediatePlace::Addi16sp => addi16sp_immediate(net, half),
        ImmediatePlace::Lui => lui_immediate(net, half),
        ImmediatePlace::Word => word_offset(net, half),
        ImmediatePlace::Lwsp => lwsp_offset(net, half),
        ImmediatePlace::Swsp => swsp_offset(net, half),
        ImmediatePlace::Jump => jump_offset(net, half),
        ImmediatePlace::Branch => branch_offset(net, half),
    }
}

fn operands_at(net: &mut Net, half: NodeId, chosen: Places) -> Result<OperandNodes, Memory>
    requires half { IsNodeOf net.old 32 half }
    requires registers { places.are_registers chosen ≡ true }
    ensures adds { AddsNodes net.old net.new }
    ensures shows { IfOk result (ShowsOperands net.old net.new
        (λ g. places.operands_at chosen (value_at net.old g half))) }
{
    let rd = register(net, half, chosen.rd)?;
    let rs1 = register(net, half, chosen.rs1)?;
    let rs2 = register(net, half, chosen.rs2)?;
    let immediate = immediate(net, half, chosen.immediate)?;
    Ok(OperandNodes {
        rd,
        rs1,
        rs2,
        immediate,
    })
}

/// The registers and the immediate of the word that a half word of the row stands for.
pub(crate) fn operands(
    net: &mut Net,
    row: CompressedRow,
    half: NodeId,
) -> Result<OperandNodes, Memory>
    requires { IsNodeOf net.old 32 half }
    ensures adds { AddsNodes net.old net.new }
    ensures shows { IfOk result (ShowsOperands net.old net.new
        (λ g. compressed.operands row (value_at net.old g half))) }
{
    operands_at(net, half, Places::of(row))
}
