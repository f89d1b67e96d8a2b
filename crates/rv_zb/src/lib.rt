//! Zba and Zbs: which row of these extensions a word matches, what it does, and its circuit over a channel.
#![tactic(auto)]

mod circuit;
mod effect;
mod laws;
mod matching;
mod monitor;
mod names;
mod nodes;
mod number;
mod result;
mod row;
mod shared;

pub use circuit::zb_circuit;
pub use effect::zb_effect;
pub use laws::{
    at_most_one_zb_row_matches, each_zb_row_is_at_its_number, no_row_of_the_base_matches,
    options_play_no_part,
};
pub use matching::zb_row_of;
pub use monitor::zb_monitor;
pub use names::zb_name;
pub use row::{BitRow, ShiftAddRow, ZbRow};
