//! RV32I, M and C on numbers: which row of the manual's tables a word matches, what a compressed word stands for, what
//! an instruction does, and when a retirement agrees with it.
#![tactic(auto)]

mod agree;
mod arithmetic;
mod assemble;
mod compressed;
mod demand;
mod effect;
mod expansion;
mod field;
mod half;
mod laws;
mod names;
mod number;
mod pattern;
mod retire;
mod row;
mod search;
mod shared;
mod step;
mod table;

pub use agree::{agrees, byte, has_byte};
pub use assemble::{funct3_of, opcode_of};
pub use demand::Demand;
pub use effect::effect_of;
pub use expansion::expand;
pub use laws::{
    at_most_one_row_matches, compressed_rows_do_as_their_expansions, division_is_the_manuals,
    each_row_is_at_its_number, expansions_match_their_rows,
};
pub use names::row_name;
pub use pattern::{Form, Pattern};
pub use retire::{Effect, Isa, Opts, Retire};
pub use row::{
    BaseRow, BranchRow, CompressedRow, ImmediateRow, LoadRow, MultiplyRow, RegisterRow, RowId,
    StoreRow,
};
pub use search::{matches, row_of};
pub use table::demands;
