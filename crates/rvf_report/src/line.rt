//! The line of a refusal.

ghost use Rattle.std.specs.Prelude.{◌≡◌, IfOk};
ghost use Rattle.rvf_report.specs.Lines as lines;
ghost use Rattle.rvf_report.specs.Printed.{ended, spaced};

use crate::config::config_line;
use crate::part::{of_elab, of_flow, of_lex, of_parse, of_port, of_prep};
use crate::says::source_line;
use crate::word::{put_end, put_word};
use fv_text::{Memory, Text};
use itoa::Buffer;
use rvf_case::{LoadFault, Refusal};
use std::alloc::Global;
use vl_text::TextFault;

/// What stands in front, and a name.
fn named_line(alloc: Global, front: &[u8], name: &[u8]) -> Result<Text, Memory>
    ensures { IfOk result (λ line. line ≡ spaced front.now (ended name.now)) }
{
    let mut line = Vec::new(alloc);
    put_word(&mut line, front)?;
    put_end(&mut line, name)?;
    Ok(Text::from_vec(line))
}

/// `heavy CHECK NUMBER`
fn heavy_line(alloc: Global, name: &[u8], number: u64) -> Result<Text, Memory>
    ensures { IfOk result (λ line. line ≡ lines.heavy_line name.now number) }
{
    let mut buffer = Buffer::new();
    let mut line = Vec::new(alloc);
    put_word(&mut line, b"heavy")?;
    put_word(&mut line, name)?;
    put_end(&mut line, buffer.format(number).as_bytes())?;
    Ok(Text::from_vec(line))
}

fn text_line(alloc: Global, names: &[Text], fault: &TextFault) -> Result<Text, Memory>
    ensures { IfOk result (λ line. line ≡ lines.text_line names.now fault.now) }
{
    match fault {
        TextFault::Lex(fault) => {
            let says = of_lex(alloc, *fault);
            source_line(alloc, names, b"lex", &says)
        }
        TextFault::Prep(fault) => {
            let says = of_prep(alloc, fault)?;
            source_line(alloc, names, b"prep", &says)
        }
        TextFault::Parse(fault) => {
            let says = of_parse(alloc, fault)?;
            source_line(alloc, names, b"parse", &says)
        }
        TextFault::Memory => Err(Memory),
    }
}

fn load_line(alloc: Global, names: &[Text], fault: &LoadFault) -> Result<Text, Memory>
    ensures { IfOk result (λ line. line ≡ lines.load_line names.now fault.now) }
{
    match fault {
        LoadFault::Text(fault) => text_line(alloc, names, fault),
        LoadFault::Elab(fault) => {
            let says = of_elab(alloc, fault)?;
            source_line(alloc, names, b"elab", &says)
        }
        LoadFault::Flow(fault) => {
            let says = of_flow(alloc, names, fault)?;
            source_line(alloc, names, b"flow", &says)
        }
        LoadFault::Port(fault) => {
            let says = of_port(alloc, *fault)?;
            source_line(alloc, names, b"port", &says)
        }
        LoadFault::Heavy(_, _) => Text::from_bytes(alloc, b""),
        LoadFault::Memory => Err(Memory),
    }
}

/// The line of a refusal, its line feed included. Want of memory has none.
pub fn refusal_line(alloc: Global, refusal: &Refusal) -> Result<Text, Memory>
    ensures { IfOk result (λ line. line ≡ lines.refusal_line refusal.now) }
{
    match refusal {
        Refusal::Absent(name) => named_line(alloc, b"absent", name.bytes()),
        Refusal::Unread(name) => named_line(alloc, b"read fault", name.bytes()),
        Refusal::Config(fault) => config_line(alloc, fault),
        Refusal::NoCheck(name) => named_line(alloc, b"refused check", name.bytes()),
        Refusal::Source(fault, names) => load_line(alloc, names.as_slice(), fault),
        Refusal::Heavy(name, number) => heavy_line(alloc, name.bytes(), *number),
        Refusal::Memory => Err(Memory),
    }
}
