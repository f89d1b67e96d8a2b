//! Numbers of so many bits: what operators make of them, and their laws.
#![tactic(auto)]

mod parts;
mod plain;
mod signed;

pub use parts::{fits, joined, masked, part};
pub use plain::{
    bit, complement, difference, is_negative, low, negative, ones, parity, product, shifted_left,
    shifted_right, sum,
};
pub use signed::{
    arithmetic_right, extended, is_below_zero, is_less, is_less_signed, magnitude, quotient,
    remainder, right_by_sign, sign_extended,
};
