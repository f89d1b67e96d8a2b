//! A search that promises nothing: it ends, and keeps to its own memory.
//!
//! What it answers is a guess that somebody else has to judge: values that may make a formula true, or steps that may
//! refute it, each of which the last one rests on. It is the loop of MiniSat (Een, Soerensson: An Extensible
//! SAT-solver): watched literals with blockers, clauses of two literals apart, activities, saved phases, restarts by
//! Luby's sequence, clauses made shorter by the reasons of their literals, and learnt clauses dropped.
#![tactic(auto)]

mod analysis;
mod arena;
mod codes;
mod decisions;
mod gave_up;
mod guess;
mod guessing;
mod heap;
mod learnt;
mod loading;
mod log;
mod propagation;
mod reason;
mod restarts;
mod search;
mod shared;
mod trail;
mod trimming;
mod watches;

pub use guess::Guess;
pub use guessing::guess_answer;
pub use restarts::Restarts;
