//! Cases of word-level nets. A case is a line: its parts, with `;` between them, make a net and ask for its numbers.
//! Nodes, registers and memories are named by their numbers from 0 on. Numbers are decimal, or hexadecimal behind `0x`.
//!
//! | part | what it makes |
//! |---|---|
//! | `input WIDTH KIND` | an input; the kind is `each`, `once` or `reset` |
//! | `konst WIDTH NUMBER` | a constant |
//! | `and A B`, or `or`, `xor`, `add`, `sub`, `mul`, `eq`, `ult`, `slt` | a node of two with one width |
//! | `shl A B`, or `lshr`, `ashr`, `concat` | a node of two |
//! | `not A`, `slice A LOW WIDTH`, `zext A WIDTH`, `sext A WIDTH` | a node of one |
//! | `mux TEST A B`, `read MEMORY A` | a choice, and a word of a memory |
//! | `reg WIDTH INIT`, `next REGISTER A` | a register that begins with a number or `free`, and its next value |
//! | `mem WIDTH INIT ..`, `write MEMORY ENABLE ADDR MASK VALUE` | a memory of as many words, and a write to it |
//! | `assume A` | an assumption |
//! | `chain MEMORY A NODE ..` | as the last node, the word at `A` of these words behind the writes to the memory |
//! | `copy` | a copy of the net, which the rest of the line is about |
//! | `share` | its nodes once more, equal ones once, which the rest is about; answers the new number of each |
//! | `cone A ..` | the part on which these nodes rest, which the rest is about; answers new numbers, or `-` |
//! | `regs NUMBER ..`, `words NUMBER ..` | the numbers of the registers, and of the words of one memory more |
//!
//! | part | what it asks |
//! |---|---|
//! | `undo A` | how many nodes there are with one more behind it, and how many when that is taken back |
//! | `node A` | the part that would make the node, an input or a register by its number |
//! | `parts` | the next nodes of the registers, how many writes each memory has, and the assumptions |
//! | `eval A NUMBER ..` | width and number of a node, or of the `last`, where the inputs have these numbers |
//! | `step A NUMBER ..` | the same, and the registers and memories behind the cycle |
//! | `sources CYCLE BAD A` | what may be chosen in runs up to a cycle |
//! | `run CYCLE BAD A NUMBER ..` | where these are chosen: whether `BAD` counts, and the number of `A` in it |
//! | `places CYCLE BAD A` | the node of the graph that each bit of what may be chosen is |
//! | `gates CYCLE BAD A` | how many nodes the graph has, how many clauses it comes to, and the literals of `A` |
//! | `clauses CYCLE BAD A` | how many variables there are, and the clauses |
//! | `cuts CYCLE BAD A` | how many variables and clauses there are by cuts, however small the graph is |
//! | `models CYCLE BAD A` | how many models these have without the last, and how many are as the graph has it |
//! | `base-sources K BAD`, `later-sources K BAD` | what may be chosen in the base of an induction, and in its step |
//! | `base K BAD NUMBER ..`, `later K BAD NUMBER ..` | where these are chosen: whether all roots are other than 0 |
//!
//! `BAD` counts where it is other than 0 in that cycle and the assumptions were met up to it. Both answers of `run`
//! are read from the graph. A part that doesn't fit the net is answered `refused`. This crate says what the crates
//! under it answer, and promises nothing of its own.
#![tactic(auto)]

mod bench;
mod chain;
mod graph;
mod halves;
mod make;
mod models;
mod part;
mod rebuild;
mod runs;
mod show;
mod store;

use crate::bench::Bench;
use anyhow::Result;
use std::alloc::Global;

/// The answer to the case of a line: those to its parts that ask or don't fit, with `;` between them.
pub fn answer(alloc: Global, line: &str) -> Result<String> {
    Ok(Bench::new(alloc).answer(line)?)
}
