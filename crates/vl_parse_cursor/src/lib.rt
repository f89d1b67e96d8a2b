//! What stands first among tokens, and why reading stops: what all reading of tokens rests on (IEEE 1364-2005, section
//! A.8, for what a token begins in an expression).
#![tactic(auto)]

mod lead;
mod stop;
mod take;

pub use lead::{Joint, Lead, binds, cast_of, is_known, joint_of, lead_of};
pub use stop::{Stop, add};
pub use take::{
    copied, enter, first_place, next, past_name, past_sign, past_word, read_name, read_sign,
    read_word,
};
