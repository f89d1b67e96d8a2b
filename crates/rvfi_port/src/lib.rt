//! The port of a design: which of its outputs show what retires (RISC-V Formal Interface), as nodes of its net.
#![tactic(auto)]

mod bound;
mod channel;
mod fault;
mod field;
mod output;
mod port;

pub use bound::bind;
pub use fault::PortFault;
pub use field::Field;
pub use port::{Channel, Port, Wants};
