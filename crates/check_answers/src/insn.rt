//! Cases of instructions.

use crate::line::{opts, retire, short, value};
use anyhow::Result;
use rv_table::{Effect, Isa, Retire, RowId, agrees, effect_of, expand, matches, row_name, row_of};
use std::alloc::{AllocError, Global};

/// RV32I with the letters behind it: `isa=i` or `im` or `ic`, and all where it isn't there.
fn isa(words: &str) -> Isa {
    match value(words, "isa") {
        "i" => Isa { m: false, c: false },
        "im" => Isa { m: true, c: false },
        "ic" => Isa { m: false, c: true },
        _ => Isa { m: true, c: true },
    }
}

/// The name of the row that the word matches.
pub(crate) fn row(words: &str) -> &'static str {
    match row_of(short(words, "insn"), isa(words)) {
        Some(row) => row_name(row),
        None => "none",
    }
}

/// The name of the row with this number.
pub(crate) fn name(words: &str) -> &'static str {
    match RowId::new(short(words, "row")) {
        Some(row) => row_name(row),
        None => "none",
    }
}

/// Whether the word matches the row with this number.
pub(crate) fn is_of_row(words: &str) -> &'static str {
    match RowId::new(short(words, "row")) {
        Some(row) if matches(row, short(words, "insn")) => "matches",
        _ => "another",
    }
}

/// The word that a half word stands for; `none` where it stands for nothing.
pub(crate) fn expansion(alloc: Global, words: &str) -> Result<String> {
    match expand(value(words, "half").parse::<u16>().unwrap_or(0)) {
        Some(word) => Ok(format!(in alloc; "0x{word:08x}")?),
        None => Ok(String::from_str(alloc, "none")?),
    }
}

/// What the word of a retirement does, by the row that it matches.
fn effect(words: &str, retire: &Retire) -> Option<(RowId, Effect)> {
    let row = row_of(retire.insn, isa(words))?;
    Some((row, effect_of(row, retire, opts(words))))
}

/// The name of the row, and what the word does, without what is 0.
pub(crate) fn effect_text(alloc: Global, words: &str) -> Result<String> {
    match effect(words, &retire(words)) {
        None => Ok(String::from_str(alloc, "none")?),
        Some((row, effect)) => {
            let mut text = String::from_str(alloc, row_name(row))?;
            add_effect(alloc, &mut text, effect)?;
            Ok(text)
        }
    }
}

fn add_effect(alloc: Global, text: &mut String, effect: Effect) -> Result<(), AllocError> {
    let fields = [
        ("rs1_addr", effect.rs1_addr),
        ("rs2_addr", effect.rs2_addr),
        ("rd_addr", effect.rd_addr),
        ("rd_wdata", effect.rd_wdata),
        ("pc_wdata", effect.pc_wdata),
        ("mem_addr", effect.mem_addr),
        ("mem_rmask", effect.rmask),
        ("mem_wmask", effect.wmask),
        ("mem_wdata", effect.wdata),
    ];
    for (name, number) in fields {
        if number != 0 {
            text.push_str(format!(in alloc; " {name}=0x{number:x}")?.as_str())?;
        }
    }
    if effect.trap {
        text.push_str(" trap")?;
    }
    Ok(())
}

/// Whether the second retirement agrees with what the word of the first does.
pub(crate) fn agreement(words: &str, other: &str) -> &'static str {
    match effect(words, &retire(words)) {
        Some((_, effect)) if agrees(&retire(other), &effect) => "agrees",
        _ => "differs",
    }
}
