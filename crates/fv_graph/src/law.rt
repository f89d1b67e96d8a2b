//! Laws of orders and circles.
ghost use Rattle.std.specs.Prelude.{◌≡◌, ◌≤◌, ◌++◌, ℕ, List, length, drop, take, IfOk};
ghost use Rattle.fv_graph.specs.Graph.{IsCircle, IsOrder, StandOnce};

use fv_text::Memory;
use std::alloc::Global;

/// The circle from one of its nodes on, which stays a circle.
pub fn circle_from(alloc: Global, circle: &[u32], at: usize) -> Result<fv_text::List<u32>, Memory>
    requires { at ≤ length circle.now }
    ensures nodes { IfOk result (λ found. found ≡ drop at circle.now ++ take at circle.now) }
    ensures closed { IfOk result (λ found. (graph : List (List ℕ)) → IsCircle graph circle.now
        → IsCircle graph found) }
    ensures once { IfOk result (λ found. StandOnce circle.now → StandOnce found) }
{
    Ok(fv_text::List::from_vec(turned(alloc, circle, at)?))
}

fn turned(alloc: Global, circle: &[u32], at: usize) -> Result<Vec<u32>, Memory>
    requires { at ≤ length circle.now }
    ensures { IfOk result (λ found. found.items ≡ drop at circle.now ++ take at circle.now) }
{
    let mut found = Vec::from_slice(alloc, &circle[at..])?;
    found.extend_from_slice(&circle[..at])?;
    Ok(found)
}

/// Where the nodes stand in an order there is no circle.
#[tactic(auto, using(crate::proofs::Ends::no_circle_beside))]
pub fn an_order_has_no_circle()
    ensures { (graph : List (List ℕ)) (order circle : List ℕ) → IsOrder graph order → IsCircle graph circle
        → ⊥ }
{}
