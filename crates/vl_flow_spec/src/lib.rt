//! What drivers read and set, why they have no order, and the weight of a design: definitions and laws.
//!
//! - What a driver reads, assigns and surely assigns, and that one map holds for each choice: laws of the definitions,
//!   without code.
//! - Why the drivers of a design without hierarchy have no order, and that those in order have one map for each choice:
//!   definitions and laws, without code.
#![tactic(auto)]

pub mod examples;
pub mod order_law;
pub mod path_law;
pub mod weights;
