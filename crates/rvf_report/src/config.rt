//! The line of a configuration that is refused.

ghost use Rattle.std.specs.Prelude.{◌≡◌, IfOk};
ghost use Rattle.rvf_report.specs.Faults as faults;
ghost use Rattle.rvf_report.specs.Lines as lines;

use crate::word::{detail, one_value, put_end, put_number, put_word};
use ck_cfg::CfgFault;
use fv_text::{List, Memory, Text};
use std::alloc::Global;

/// The line that the refusal names, from 1; 0 where it names none.
fn line_of(fault: &CfgFault) -> u32
    ensures { result ≡ faults.config_line_of fault.now }
{
    match fault {
        CfgFault::Section { line, .. }
        | CfgFault::Option { line, .. }
        | CfgFault::Depth { line }
        | CfgFault::Isa { line, .. }
        | CfgFault::Twice { line, .. }
        | CfgFault::TooDeep { line }
        | CfgFault::Nret { line }
        | CfgFault::Script { line } => *line,
        CfgFault::Missing { .. } | CfgFault::NotUtf8 | CfgFault::Memory => 0,
    }
}

fn values_of(alloc: Global, fault: &CfgFault) -> Result<List<Text>, Memory>
    ensures { IfOk result (λ values. values ≡ faults.config_values fault.now) }
{
    match fault {
        CfgFault::Section { name, .. } => one_value(alloc, name.bytes()),
        CfgFault::Option { key, .. } => one_value(alloc, key.bytes()),
        CfgFault::Isa { text, .. } => one_value(alloc, text.bytes()),
        CfgFault::Missing { section } => one_value(alloc, section.bytes()),
        CfgFault::Twice { key, .. } => one_value(alloc, key.bytes()),
        _ => Ok(List::new(alloc)),
    }
}

/// `config C LINE DETAIL`
pub(crate) fn config_line(alloc: Global, fault: &CfgFault) -> Result<Text, Memory>
    ensures { IfOk result (λ line. line ≡ lines.config_line fault.now) }
{
    let values = values_of(alloc, fault)?;
    let words = detail(alloc, values.as_slice())?;
    let mut line = Vec::new(alloc);
    put_word(&mut line, b"config")?;
    put_number(&mut line, fault.number() as u64)?;
    put_number(&mut line, line_of(fault) as u64)?;
    put_end(&mut line, words.as_slice())?;
    Ok(Text::from_vec(line))
}
