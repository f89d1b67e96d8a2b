//! Which refusal of an instance, of what it gives and of what it joins is answered.
//!
//! - Which refusal is answered of what an instance joins to a port of its module.
//! - Where instances are refused: by what they name, by what they give to parameters and by what they join to ports.
#![tactic(auto)]

mod clock;
mod connection;
mod connections;
mod inputs;
mod instances;
mod overrides;
mod parameters;
mod ports;
mod varying;

pub use connections::connection_step_fault;
pub use inputs::{add_connection, joined_inputs};
pub use instances::instance_fault;
pub use overrides::override_step_fault;
pub use parameters::ParameterTable;
pub use ports::PortTable;
