//! What is true in a search and why, and sets of clauses.
//!
//! - What is true in a search, and why: literals in the order in which they became true, each with the clause that
//!   forced it or none; and the clauses, by their places.
//! - Sets of clauses, each of which is a set of literals.
#![tactic(auto)]

mod clause_list;
mod place_table;
mod set;
mod trail;

pub use clause_list::ClauseList;
pub use place_table::Places;
pub use set::ClauseSet;
pub use trail::{Entry, Trail};
