//! From the bytes of texts to the net of their design, with its names, its port, its options and its weight.
#![tactic(auto)]

mod asked;
mod fault;
mod heavy;
mod loaded;
mod loading;
mod netted;
mod ordering;
mod shared;

pub use asked::Probes;
pub use fault::LoadFault;
pub use loaded::Loaded;
pub use loading::load;
