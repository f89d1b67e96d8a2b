//! Configurations: the checks with their cycles, the skipped lines and the files; or the refusal.

use certificate_answers::{parted, put_escaped};
use ck_cfg::{CfgFault, Check, Config, Piece, checks, file_names, read_cfg};
use ck_cover::{Target, targets};
use fv_text::{Memory, Text};
use std::alloc::Global;

/// What depth lines come to, of which the first is line 4.
pub(crate) fn put_depth(alloc: Global, out: &mut String, lines: &[u8]) -> Result<(), Memory> {
    let mut text = Vec::from_slice(alloc, b"[options]\nisa rv32i\n[depth]\n")?;
    text.extend_from_slice(lines)?;
    text.extend_from_slice(b"\n[verilog-files]\nw.v\n")?;
    put_reading(alloc, out, text.as_slice())
}

pub(crate) fn put_reading(alloc: Global, out: &mut String, text: &[u8]) -> Result<(), Memory> {
    match read_cfg(alloc, text) {
        Ok(config) => put_config(alloc, out, &config),
        Err(fault) => put_fault(out, &fault),
    }
}

fn put_config(alloc: Global, out: &mut String, config: &Config) -> Result<(), Memory> {
    put_checks(out, checks(alloc, config)?.as_slice())?;
    put_texts(out, "skip", config.skips.as_slice())?;
    put_texts(out, "; files", config.files.as_slice())
}

fn put_checks(out: &mut String, checks: &[Check]) -> Result<(), Memory> {
    for check in checks {
        put_check(out, check)?;
    }
    Ok(())
}

fn put_check(out: &mut String, check: &Check) -> Result<(), Memory> {
    put_escaped(out, check.name.bytes())?;
    write!(out, " {} {} {}, ", check.start, check.trig, check.cycle)?;
    Ok(())
}

/// The targets of a configuration's checks, with their cycles; or the refusal.
pub(crate) fn put_reaching(alloc: Global, out: &mut String, text: &[u8]) -> Result<(), Memory> {
    match read_cfg(alloc, text) {
        Ok(config) => put_targets_of(alloc, out, &config),
        Err(fault) => put_fault(out, &fault),
    }
}

fn put_targets_of(alloc: Global, out: &mut String, config: &Config) -> Result<(), Memory> {
    let checks = checks(alloc, config)?;
    put_targets(out, targets(alloc, checks.as_slice())?.as_slice())
}

fn put_targets(out: &mut String, targets: &[Target]) -> Result<(), Memory> {
    for target in targets {
        put_target(out, target)?;
    }
    Ok(())
}

/// The name of a target, its channel and its cycle.
fn put_target(out: &mut String, target: &Target) -> Result<(), Memory> {
    if !out.is_empty() {
        out.push(' ')?;
    }
    put_escaped(out, target.name.bytes())?;
    write!(out, " {} {};", target.channel, target.cycle)?;
    Ok(())
}

fn put_texts(out: &mut String, mark: &str, texts: &[Text]) -> Result<(), Memory> {
    out.push_str(mark)?;
    for text in texts {
        out.push(' ')?;
        put_escaped(out, text.bytes())?;
    }
    Ok(())
}

/// The number of a refusal, its line, and its other value, if it has one.
fn put_fault(out: &mut String, fault: &CfgFault) -> Result<(), Memory> {
    let (line, detail) = parts(fault);
    write!(out, "{} {line} '", fault.number())?;
    put_escaped(out, detail)?;
    out.push('\'')?;
    Ok(())
}

/// The line of a refusal, 0 where it has none, and its other value.
fn parts(fault: &CfgFault) -> (u32, &[u8]) {
    match fault {
        CfgFault::Section { line, name: detail }
        | CfgFault::Option { line, key: detail }
        | CfgFault::Isa { line, text: detail }
        | CfgFault::Twice { line, key: detail } => (*line, detail.bytes()),
        CfgFault::Missing { section } => (0, section.bytes()),
        CfgFault::Depth { line }
        | CfgFault::TooDeep { line }
        | CfgFault::Nret { line }
        | CfgFault::Script { line } => (*line, b""),
        CfgFault::NotUtf8 | CfgFault::Memory => (0, b""),
    }
}

/// The pieces of Verilog text with the numbers of their lines, those of one kind with its name, and the assumptions.
pub(crate) fn put_pieces(alloc: Global, out: &mut String, text: &[u8]) -> Result<(), Memory> {
    match read_cfg(alloc, text) {
        Ok(config) => put_pieces_of(out, &config),
        Err(_) => Ok(()),
    }
}

fn put_pieces_of(out: &mut String, config: &Config) -> Result<(), Memory> {
    for piece in config.defines.as_slice() {
        put_piece(out, b"all", piece)?;
    }
    for kind_piece in config.kind_defines.as_slice() {
        put_piece(out, kind_piece.kind.name(), &kind_piece.piece)?;
    }
    for piece in config.assumes.as_slice() {
        put_piece(out, b"assume", piece)?;
    }
    Ok(())
}

fn put_piece(out: &mut String, mark: &[u8], piece: &Piece) -> Result<(), Memory> {
    if !out.is_empty() {
        out.push(' ')?;
    }
    put_escaped(out, mark)?;
    write!(out, " {}: ", piece.line)?;
    put_escaped(out, piece.text.bytes())?;
    out.push(';')?;
    Ok(())
}

/// The name of a file, with the core's name and the base folder put in, from `NAME|CORE|FOLDER`.
pub(crate) fn put_file(alloc: Global, out: &mut String, text: &[u8]) -> Result<(), Memory> {
    let (name, rest) = parted(text);
    let mut source = Vec::from_slice(alloc, b"[depth]\nhang\n[verilog-files]\n")?;
    source.extend_from_slice(name)?;
    put_file_of(alloc, out, source.as_slice(), rest)
}

fn put_file_of(alloc: Global, out: &mut String, source: &[u8], rest: &[u8]) -> Result<(), Memory> {
    match read_cfg(alloc, source) {
        Ok(config) => put_names(alloc, out, &config, rest),
        Err(_) => Ok(()),
    }
}

/// The names of the configuration's files, from `CORE|FOLDER`.
fn put_names(alloc: Global, out: &mut String, config: &Config, rest: &[u8]) -> Result<(), Memory> {
    let (core, basedir) = parted(rest);
    let core = Text::from_bytes(alloc, core)?;
    let basedir = Text::from_bytes(alloc, basedir)?;
    put_all(out, file_names(alloc, config, &core, &basedir)?.as_slice())
}

fn put_all(out: &mut String, texts: &[Text]) -> Result<(), Memory> {
    for text in texts {
        put_escaped(out, text.bytes())?;
    }
    Ok(())
}

/// A section whose name has 100,000 letters, in line 2: the number and the line of its refusal, and how long its name
/// is.
pub(crate) fn put_long_section(alloc: Global, out: &mut String) -> Result<(), Memory> {
    let text = long_section(alloc)?;
    match read_cfg(alloc, text.as_slice()) {
        Ok(_) => Ok(()),
        Err(fault) => put_length(out, &fault),
    }
}

fn long_section(alloc: Global) -> Result<Vec<u8>, Memory> {
    let mut text = Vec::from_slice(alloc, b"# a comment\n[")?;
    for _ in 0..100000u32 {
        text.push(b'x')?;
    }
    text.push(b']')?;
    Ok(text)
}

fn put_length(out: &mut String, fault: &CfgFault) -> Result<(), Memory> {
    let (line, detail) = parts(fault);
    write!(out, "{} {line} {}", fault.number(), detail.len())?;
    Ok(())
}
