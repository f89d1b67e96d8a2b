//! The parts of a line.

use ck_cfg::{Check, CheckKind};
use ck_spec::{Probe, Retired};
use fv_text::{Memory, Text};
use rv_table::{Opts, Retire, RowId};
use std::alloc::Global;

/// What stands behind `name=` in the word that begins so; nothing where there is none.
pub(crate) fn value<'a>(words: &'a str, name: &str) -> &'a str {
    for word in words.split(' ') {
        if let Some((left, right)) = word.split_once('=') {
            if left == name {
                return right;
            }
        }
    }
    ""
}

/// A number in decimal digits, or in hexadecimal ones behind `0x`; 0 where it isn't there.
pub(crate) fn number(words: &str, name: &str) -> u64 {
    let word = value(words, name);
    match word.split_once('x') {
        Some((_, digits)) => u64::from_str_radix(digits, 16).unwrap_or(0),
        None => word.parse::<u64>().unwrap_or(0),
    }
}

/// The same of 32 bits; 0 where it is larger.
pub(crate) fn short(words: &str, name: &str) -> u32 {
    let number = number(words, name);
    if number < 1 << 32 { number as u32 } else { 0 }
}

pub(crate) fn opts(words: &str) -> Opts {
    Opts {
        aligned: number(words, "aligned") != 0,
        altops: number(words, "altops") != 0,
        c: number(words, "c") != 0,
    }
}

/// The check that the first word names.
pub(crate) fn check(alloc: Global, words: &str) -> Result<Option<Check>, Memory> {
    let (name, _) = words.split_once(' ').unwrap_or((words, ""));
    let found = CheckKind::all()
        .iter()
        .copied()
        .find(|kind| kind.name() == name.as_bytes());
    let Some(kind) = found else {
        return Ok(None);
    };
    let row = if kind == CheckKind::Insn {
        RowId::new(short(words, "row"))
    } else {
        None
    };
    Ok(Some(Check {
        name: Text::from_bytes(alloc, name.as_bytes())?,
        kind,
        row,
        channel: short(words, "channel"),
        start: short(words, "start"),
        trig: short(words, "trig"),
        cycle: short(words, "cycle"),
    }))
}

pub(crate) fn probe(words: &str) -> Probe {
    Probe {
        imem_addr: short(words, "imem_addr"),
        imem_data: value(words, "imem_data").parse::<u16>().unwrap_or(0),
        dmem_addr: short(words, "dmem_addr"),
    }
}

/// What retires in the order in which it stands; with `idle`, what is shown where nothing retires.
pub(crate) fn retires(alloc: Global, text: &str, idle: bool) -> Result<Vec<Retired>, Memory> {
    let mut retires = Vec::new(alloc);
    for words in text.split('|') {
        if !words.is_empty() && (number(words, "idle") == 1) == idle {
            retires.push(Retired {
                cycle: short(words, "cycle"),
                channel: short(words, "channel"),
                retire: retire(words),
            })?;
        }
    }
    Ok(retires)
}

pub(crate) fn retire(words: &str) -> Retire {
    Retire {
        order: number(words, "order"),
        insn: short(words, "insn"),
        trap: number(words, "trap") != 0,
        halt: number(words, "halt") != 0,
        intr: number(words, "intr") != 0,
        rs1_addr: short(words, "rs1_addr"),
        rs2_addr: short(words, "rs2_addr"),
        rd_addr: short(words, "rd_addr"),
        rs1_rdata: short(words, "rs1_rdata"),
        rs2_rdata: short(words, "rs2_rdata"),
        rd_wdata: short(words, "rd_wdata"),
        pc_rdata: short(words, "pc_rdata"),
        pc_wdata: short(words, "pc_wdata"),
        mem_addr: short(words, "mem_addr"),
        mem_rmask: short(words, "mem_rmask"),
        mem_wmask: short(words, "mem_wmask"),
        mem_rdata: short(words, "mem_rdata"),
        mem_wdata: short(words, "mem_wdata"),
    }
}
