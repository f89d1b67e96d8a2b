//! Roots and watched nodes.
ghost use Rattle.std.specs.Prelude.{◌≡◌, ◌<◌, ℕ, [], List, length, map, slice_index_or, IfOk};
ghost use Rattle.std.specs.List.{AllByRecursion};
ghost use Rattle.bb_aig.specs.Gates.{Grows, IsMade};
ghost use Rattle.bb_words.specs.Words.{Numbers, AreWords};
ghost use Rattle.bb_blast.specs.Walk.{Reads, all_other_than_0};

use crate::node::word_at;
use bb_aig::{Gates, Lit};
use bb_words::{constant, is_any};
use fv_text::{List, Memory};
use std::alloc::Global;
use wn_net::NodeId;

/// Whether each of these nodes is other than 0.
pub(crate) fn all_set(
    gates: &mut Gates,
    table: &[List<Lit>],
    roots: &[NodeId],
) -> Result<Lit, Memory>
    requires { Reads gates.old table.now (λ ws. AllByRecursion (λ i. i < length ws) roots.now) }
    ensures grows { Grows gates.old gates.new }
    ensures made { IfOk result (λ l. (ws : List ℕ) (means : Numbers)
        → AllByRecursion (λ i. i < length ws) roots.now → AreWords gates.old ws means table.now
        → IsMade gates.new (λ x. all_other_than_0 (means x) roots.now) l) }
{
    let mut all = constant(gates, true);
    for root in roots {
        let none = constant(gates, false);
        let any = is_any(gates, word_at(table, *root), none)?;
        all = gates.and(all, any)?;
    }
    Ok(all)
}

/// The literals of these nodes.
pub(crate) fn watched(
    alloc: Global,
    table: &[List<Lit>],
    watch: &[NodeId],
) -> Result<List<List<Lit>>, Memory>
    requires { AllByRecursion (λ i. i < length table.now) watch.now }
    ensures { IfOk result (λ r. r ≡ map (λ i. slice_index_or table.now i []) watch.now) }
{
    let mut made = List::new(alloc);
    for id in watch {
        let word = Vec::from_slice(alloc, word_at(table, *id))?;
        made.push(List::from_vec(word))?;
    }
    Ok(made)
}
