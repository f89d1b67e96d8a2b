//! What the two texts of a certificate say, a clause file and a proof: laws of the definitions, without code.
#![tactic(auto)]

pub mod law;
