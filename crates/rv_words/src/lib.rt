//! Circuits for the words of RV32I: what the table of instructions computes of numbers, as nodes of a net.
#![tactic(auto)]

mod arithmetic;
mod constants;
mod fields;
mod immediates;
mod lanes;
mod matching;
mod products;
mod step;
mod tests;

pub use arithmetic::{
    difference, even, exactly_one, immediate_result, plus, product, register_result, sum,
};
pub use constants::{bit, constant, word};
pub use fields::{beside, field, join, raised, sign_extended};
pub use immediates::{b_immediate, i_immediate, j_immediate, s_immediate, u_immediate};
pub use lanes::{
    bytes_from, bytes_to, extended, is_misaligned, isnt_of_word, mask_at, place_in_word,
    word_address, zero_extended,
};
pub use matching::hit;
pub use products::{upper_product, upper_product_mixed, upper_product_signed};
pub use step::StepNodes;
pub use tests::{equal, is_number, is_taken, isnt_number, less, truth, unless_x0};
