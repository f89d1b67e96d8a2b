//! How what is loaded is printed, and the refusals of texts.

use anyhow::Result;
use rvf_load::{LoadFault, Loaded};
use rvfi_port::PortFault;
use std::alloc::Global;
use vl_elab_spec::refusal_number;
use vl_flow::FlowFault;
use vl_text::TextFault;

pub(crate) fn loaded(alloc: Global, loaded: &Loaded) -> Result<String> {
    let inputs = loaded.net.inputs().len();
    let registers = loaded.net.regs().len();
    let memories = loaded.net.mems().len();
    let weight = loaded.weight;
    let mut out = format!(in alloc; "loaded {inputs} {registers} {memories} {weight}")?;
    for (is_there, word) in [
        (loaded.opts.aligned, " aligned"),
        (loaded.opts.altops, " altops"),
        (loaded.opts.c, " compressed"),
        (loaded.port.imem.is_some(), " imem"),
        (loaded.port.dmem.is_some(), " dmem"),
    ] {
        if is_there {
            out.push_str(word)?;
        }
    }
    Ok(out)
}

fn of_text(fault: &TextFault) -> &'static str {
    match fault {
        TextFault::Lex(_) => "lex",
        TextFault::Prep(_) => "prep",
        TextFault::Parse(_) => "parse",
        TextFault::Memory => "memory",
    }
}

fn flow_number(fault: &FlowFault) -> u32 {
    match fault {
        FlowFault::Loop(_) => 1,
        FlowFault::Latch(_, _) => 2,
        FlowFault::TwoDrivers(_, _, _, _) => 3,
        FlowFault::Undriven(_, _) => 4,
        FlowFault::BlockingShared(_, _) => 5,
        FlowFault::Mixed(_, _) => 6,
        FlowFault::Memory => 7,
    }
}

fn of_port(alloc: Global, fault: PortFault) -> Result<String> {
    match fault {
        PortFault::Missing(field) => Ok(format!(in alloc; "missing {field:?}")?),
        PortFault::Width(field, found, wanted) => Ok(format!(in alloc;
            "width {field:?} {found} {wanted}"
        )?),
        PortFault::NeedsAligned => Ok(String::from_str(alloc, "aligned")?),
        PortFault::Memory => Ok(String::from_str(alloc, "memory")?),
    }
}

pub(crate) fn refusal(alloc: Global, fault: &LoadFault) -> Result<String> {
    match fault {
        LoadFault::Text(fault) => Ok(String::from_str(alloc, of_text(fault))?),
        LoadFault::Elab(fault) => {
            let number = refusal_number(fault);
            Ok(format!(in alloc; "elab {number}")?)
        }
        LoadFault::Flow(fault) => {
            let number = flow_number(fault);
            Ok(format!(in alloc; "flow {number}")?)
        }
        LoadFault::Heavy(place, product) => Ok(format!(in alloc; "heavy {place} {product}")?),
        LoadFault::Port(fault) => {
            let refused = of_port(alloc, *fault)?;
            Ok(format!(in alloc; "port {refused}")?)
        }
        LoadFault::Memory => Ok(String::from_str(alloc, "memory")?),
    }
}
