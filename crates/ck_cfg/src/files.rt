//! The names of the Verilog files.

ghost use Rattle.std.specs.Prelude.{◌≡◌, ◌++◌, ◌<◌, length, IfOk, OnOk};
ghost use Rattle.ck_cfg.specs.Files.{filled, file_names_of};

use crate::config::Config;
use fv_text::{List, Memory, Text};
use std::alloc::Global;

/// The names of the Verilog files, with the core's name and the base folder put in from left to right. What was put in
/// isn't read again.
pub fn file_names(
    alloc: Global,
    config: &Config,
    core: &Text,
    basedir: &Text,
) -> Result<List<Text>, Memory>
    ensures { IfOk result (λ names. names ≡ file_names_of config.now core.now basedir.now) }
{
    let mut names = List::new(alloc);
    for name in config.files.as_slice() {
        names.push(filled(alloc, name.bytes(), core.bytes(), basedir.bytes())?)?;
    }
    Ok(names)
}

fn filled(alloc: Global, name: &[u8], core: &[u8], basedir: &[u8]) -> Result<Text, Memory>
    ensures { IfOk result (λ text. text ≡ filled core.now basedir.now name.now) }
{
    let mut out = Vec::new(alloc);
    let mut rest = name;
    while !rest.is_empty() {
        rest = put_part(&mut out, rest, core, basedir)?;
    }
    Ok(Text::from_vec(out))
}

/// Puts what the name begins with, and says what stands behind it.
fn put_part<'a>(
    out: &mut Vec<u8>,
    name: &'a [u8],
    core: &[u8],
    basedir: &[u8],
) -> Result<&'a [u8], Memory>
    requires { 0 < length name.now }
    ensures same { IfOk result (λ rest. out.new.items ++ filled core.now basedir.now rest.now ≡ out.old.items
        ++ filled core.now basedir.now name.now) }
    ensures shorter { IfOk result (λ rest. length rest.now < length name.now) }
{
    if let Some(rest) = name.strip_prefix(b"@basedir@".as_slice()) {
        out.extend_from_slice(basedir)?;
        return Ok(rest);
    }
    if let Some(rest) = name.strip_prefix(b"@core@".as_slice()) {
        out.extend_from_slice(core)?;
        return Ok(rest);
    }
    out.push(name[0])?;
    Ok(&name[1..])
}
