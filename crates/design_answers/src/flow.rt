//! Cases of drivers. A case is a Verilog text on one line, whose top module is `top` and is a design. The answer is
//! `ordered` where its drivers have an order, and else the refusal's number, its place, or `-` where it has none, and
//! its other values, or `-`.

use crate::elab::design;
use crate::flow_refusal::refusal;
use anyhow::Result;
use std::alloc::Global;
use vl_flow::{FlowFault, Ordered, order};

/// The design of a text in order, or why it has no order; nothing where it is no design. An error is want of memory, or
/// a text without a tree.
pub(crate) fn design_in_order(
    alloc: Global,
    text: &str,
) -> Result<Option<Result<Ordered, FlowFault>>> {
    match design(alloc, text)? {
        Ok(flat) => Ok(Some(order(alloc, flat))),
        Err(_reason) => Ok(None),
    }
}

/// The answer to the case of a text: `ordered`, the refusal, or that there is no design. An error is want of memory, or
/// a text without a tree.
pub fn answer(alloc: Global, text: &str) -> Result<String> {
    match design_in_order(alloc, text)? {
        None => Ok(String::from_str(alloc, "no design")?),
        Some(Ok(_ordered)) => Ok(String::from_str(alloc, "ordered")?),
        Some(Err(fault)) => refusal(alloc, &fault),
    }
}
