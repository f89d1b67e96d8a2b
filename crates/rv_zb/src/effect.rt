//! What an instruction does, on numbers.
ghost use Rattle.std.specs.Prelude.{◌≡◌, true};
ghost use Rattle.rv_table.specs.Effect.{unless_x0};
ghost use Rattle.rv_zb.specs.Rows.{zb_matches};
ghost use Rattle.rv_zb.specs.Effect as effect;

use crate::result::five_bits;
use crate::row::ZbRow;
use rv_table::{Effect, Retire};

fn unless_x0(address: u32, value: u32) -> u32
    ensures { result ≡ unless_x0 address value }
{
    if address == 0 { 0 } else { value }
}

/// What an instruction of the row does at this retirement's program counter and source values: rd gets the row's
/// result, and the next word follows.
#[tactic(auto, unfolding(crate::specs::Effect::zb_effect, rv_table::specs::Effect::step, rv_table::specs::Effect::gives))]
pub fn zb_effect(row: ZbRow, retire: &Retire) -> Effect
    requires { zb_matches row retire.now.insn ≡ true }
    ensures { result ≡ effect.zb_effect row retire.now }
{
    let rs1_addr = five_bits(retire.insn, 15);
    let rd_addr = five_bits(retire.insn, 7);
    let field = five_bits(retire.insn, 20);
    let s1 = unless_x0(rs1_addr, retire.rs1_rdata);
    let s2 = unless_x0(field, retire.rs2_rdata);
    let (rs2_addr, value) = match row {
        ZbRow::ShiftAdd(row) => (field, row.result(s1, s2)),
        ZbRow::Bit(row) => (field, row.result(s1, five_bits(s2, 0))),
        ZbRow::BitImmediate(row) => (0, row.result(s1, field)),
    };
    Effect {
        rs1_addr,
        rs2_addr,
        rd_addr,
        rd_wdata: unless_x0(rd_addr, value),
        pc_wdata: retire.pc_rdata.wrapping_add(4),
        mem_addr: 0,
        rmask: 0,
        wmask: 0,
        wdata: 0,
        trap: false,
    }
}
