use rv_table::{Opts, Retire, RowId, row_name};
use rv_zb::{ZbRow, zb_name};

/// A row of one of the tables.
#[derive(Debug, Clone, Copy, PartialEq, Eq)]
pub enum Row {
    /// Of RV32I, M and C.
    Base(RowId),
    /// Of Zba and Zbs.
    Zb(ZbRow),
}

/// An instruction of a row, with what it finds.
#[derive(Debug, Clone, Copy, PartialEq, Eq)]
pub struct Case {
    pub row: Row,
    pub retire: Retire,
    pub opts: Opts,
}

fn row_named(name: &str) -> Option<Row> {
    let base = (0..70)
        .filter_map(RowId::new)
        .find(|row| row_name(*row) == name);
    match base {
        Some(row) => Some(Row::Base(row)),
        None => zb_named(name),
    }
}

fn zb_named(name: &str) -> Option<Row> {
    let row = (0..11)
        .filter_map(ZbRow::new)
        .find(|row| zb_name(*row) == name)?;
    Some(Row::Zb(row))
}

fn hexadecimal(word: Option<&str>) -> Option<u32> {
    u32::from_str_radix(word?, 16).ok()
}

/// The retirement of an instruction that leaves nothing.
fn retire_of(insn: u32, s1: u32, s2: u32, pc: u32, mem: u32) -> Retire {
    Retire {
        order: 0,
        insn,
        trap: false,
        halt: false,
        intr: false,
        rs1_addr: 0,
        rs2_addr: 0,
        rd_addr: 0,
        rs1_rdata: s1,
        rs2_rdata: s2,
        rd_wdata: 0,
        pc_rdata: pc,
        pc_wdata: 0,
        mem_addr: 0,
        mem_rmask: 0,
        mem_wmask: 0,
        mem_rdata: mem,
        mem_wdata: 0,
    }
}

pub(crate) fn case_of(line: &str) -> Option<Case> {
    let mut words = line.split(' ');
    let row = row_named(words.next()?)?;
    let insn = hexadecimal(words.next())?;
    let s1 = hexadecimal(words.next())?;
    let s2 = hexadecimal(words.next())?;
    let pc = hexadecimal(words.next())?;
    let mem = hexadecimal(words.next())?;
    let chosen = words.next()?;
    Some(Case {
        row,
        retire: retire_of(insn, s1, s2, pc, mem),
        opts: Opts {
            aligned: chosen.contains('a'),
            altops: chosen.contains('m'),
            c: chosen.contains('c'),
        },
    })
}
