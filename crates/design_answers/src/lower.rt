//! Cases of lowering. A case is a Verilog text on one line, whose top module is `top` and is a design with an order.
//! The answer is what its name `y` has in cycles 0 to 9 of the run in which all that is free is 0, or one number where
//! it has the same in each.
#![tactic(auto, using(crate::proofs::Chosen::none_is_chosen))]

use crate::flow::design_in_order;
use crate::values::values;
use anyhow::Result;
use fv_text::{List, Memory, Trace};
use std::alloc::Global;
use tr_replay::{Chosen, replay};
use vl_flow::Ordered;
use vl_lower::lower;

/// The run of a design in which all that is free is 0.
fn run(alloc: Global, ordered: &Ordered) -> Result<Trace, Memory> {
    let lowered = lower(alloc, ordered)?;
    let chosen = Chosen {
        each_cycle: List::new(alloc),
        once: List::new(alloc),
        regs: List::new(alloc),
        words: List::new(alloc),
    };
    replay(alloc, &lowered.net, &lowered.names, &chosen, 9)
}

/// The answer to the case of a text: values of `y`, or that there is no design, no order or no such name. An error is
/// want of memory, or a text without a tree.
pub fn answer(alloc: Global, text: &str) -> Result<String> {
    match design_in_order(alloc, text)? {
        None => Ok(String::from_str(alloc, "no design")?),
        Some(Err(_fault)) => Ok(String::from_str(alloc, "no order")?),
        Some(Ok(ordered)) => {
            let trace = run(alloc, &ordered)?;
            values(alloc, &trace)
        }
    }
}
