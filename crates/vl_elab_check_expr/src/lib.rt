//! Which refusal of an expression is answered, over what its names mean.
#![tactic(auto)]

mod bounds;
mod exprs;
mod fault;
mod judge;
mod selects;
mod width;

pub use exprs::{expr_fault, expr_fault_in, own_fault};
pub use fault::{
    clock_if, divided_by_zero, first_of, kind_if, parameter_if, range_if, too_wide, twice_if,
};
pub use judge::{Judged, closed, either, is_constant, judge_selects};
pub use selects::{far_fault, is_clock, object_fault, vector_fault};
pub use width::{name_width, plus, vector_of};
