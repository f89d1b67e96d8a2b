//! A target's node, stepped over a net that plays a run.

use crate::line;
use crate::play::value_at_last;
use crate::port::{has_port, net_of_inputs, port_of_inputs};
use crate::run::Run;
use anyhow::Result;
use ck_cfg::CheckKind;
use ck_cover::{Target, goal};
use fv_text::{Memory, Text};
use rv_table::RowId;
use std::alloc::Global;

/// The target of a line: of a row, or without one.
fn target_of(alloc: Global, head: &str, row: Option<RowId>) -> Result<Target, Memory> {
    Ok(Target {
        name: Text::from_bytes(alloc, b"target")?,
        kind: CheckKind::Insn,
        row,
        channel: line::short(head, "channel"),
        cycle: line::short(head, "cycle"),
    })
}

/// Whether the run reaches the target, by what the target's node shows in its cycle.
fn reached(alloc: Global, head: &str, rest: &str, row: Option<RowId>) -> Result<&'static str> {
    let target = target_of(alloc, head, row)?;
    let run = Run::of(alloc, head, rest)?;
    let mut net = net_of_inputs(alloc, run.channels)?;
    let port = port_of_inputs(alloc, run.channels)?;
    if !has_port(&net, &port) {
        return Ok("no net");
    }
    let node = goal(&mut net, &port, &target)?;
    let Some(value) = value_at_last(alloc, &net, &run, target.cycle, node)? else {
        return Ok("no net");
    };
    Ok(if value == 0 { "not reached" } else { "reached" })
}

/// The same for a row.
pub(crate) fn hit(alloc: Global, head: &str, rest: &str) -> Result<&'static str> {
    match RowId::new(line::short(head, "row")) {
        Some(row) => reached(alloc, head, rest, Some(row)),
        None => Ok("no row"),
    }
}

/// The same without a row.
pub(crate) fn any(alloc: Global, head: &str, rest: &str) -> Result<&'static str> {
    reached(alloc, head, rest, None)
}
