//! Small designs, with maps that hold of them and maps that don't, and small designs that are refused.
#![tactic(auto)]

pub mod designs;
pub mod examples;
pub mod refusals;
