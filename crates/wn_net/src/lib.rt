//! Word-level nets: nodes over inputs, registers and memories, with numbers of up to 128 bits.
#![tactic(auto)]

mod advance;
mod build;
mod copy;
mod eval;
mod given;
mod names;
mod net;
mod node;
mod parts;
mod shared;
mod sources;
mod value;

pub use names::{Names, NetName, Place, Spot};
pub use net::Net;
pub use node::{Node, NodeId};
pub use parts::{Init, Input, InputKind, Mem, MemWrite, Reg, State};
