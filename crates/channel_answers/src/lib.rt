//! Cases of channels: what the circuit of a row shows of one, and what those of a bound port show. This crate says what
//! the crates under it answer, and promises nothing of its own.
#![tactic(auto)]

mod case;
mod channel;
pub mod circuit;
mod circuit_shown;
mod design;
pub mod port;
mod port_shown;
mod values;
