//! The grammar of Verilog sources as a machine, and what it has to do with trees.
#![tactic(auto)]

mod law;

pub use law::{
    a_text_has_one_tree, runs_stop_at_the_first_fault, texts_are_read_up_to_the_limit,
    the_grammar_has_what_trees_spell,
};
