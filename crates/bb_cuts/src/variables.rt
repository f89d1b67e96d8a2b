//! Which variable a node is.
ghost use Rattle.std.specs.Prelude.{◌≡◌, ◌≤◌, ◌^◌, length, IfOk, IfSome};
ghost use Rattle.bb_cuts.specs.Variables.{AreNamed, AreSame, AreSameWords, IsNamed, IsSame};

use crate::leaves::Leaves;
use bb_aig::Lit;
use fv_text::{List, Memory};
use std::alloc::Global;

/// The variable that is a node. A guess stands at the node's number; it is looked up before it is used.
fn variable_of(nodes: &[u64], guesses: &[u64], node: u64) -> Option<u64>
    ensures { IfSome result (λ k. IsNamed nodes.now k node) }
{
    let guess = guesses.get(node as usize).copied()?;
    if guess >= nodes.len() as u64 {
        return None;
    }
    if nodes[guess as usize] == node {
        Some(guess)
    } else {
        None
    }
}

/// The variables that the leaves of a cut are.
pub(crate) fn variables_of(nodes: &[u64], guesses: &[u64], leaves: &Leaves) -> Option<Leaves>
    ensures { IfSome result (λ vars. AreNamed nodes.now vars leaves.now) }
{
    let first = variable_of(nodes, guesses, leaves.first)?;
    let second = variable_of(nodes, guesses, leaves.second)?;
    let third = variable_of(nodes, guesses, leaves.third)?;
    let fourth = variable_of(nodes, guesses, leaves.fourth)?;
    Some(Leaves {
        first,
        second,
        third,
        fourth,
    })
}

/// The literal of the variable that a literal's node is, with the same sign.
pub(crate) fn literal_of(nodes: &[u64], guesses: &[u64], lit: Lit) -> Option<Lit>
    requires { length nodes.now ≤ 2 ^ 62 }
    ensures { IfSome result (λ l. IsSame nodes.now l lit) }
{
    let var = variable_of(nodes, guesses, lit / 2)?;
    Some(2 * var + lit % 2)
}

/// The literals of the variables, for a word of the graph.
fn word_of(
    alloc: Global,
    nodes: &[u64],
    guesses: &[u64],
    word: &[Lit],
) -> Result<Option<List<Lit>>, Memory>
    requires { length nodes.now ≤ 2 ^ 62 }
    ensures { IfOk result (λ o. IfSome o (λ made. AreSame nodes.now made word.now)) }
{
    let mut made = List::new(alloc);
    for lit in word {
        let Some(own) = literal_of(nodes, guesses, *lit) else {
            return Ok(None);
        };
        made.push(own)?;
    }
    Ok(Some(made))
}

/// The literals of the variables, for words of the graph.
pub(crate) fn words_of(
    alloc: Global,
    nodes: &[u64],
    guesses: &[u64],
    words: &[List<Lit>],
) -> Result<Option<List<List<Lit>>>, Memory>
    requires { length nodes.now ≤ 2 ^ 62 }
    ensures { IfOk result (λ o. IfSome o (λ made. AreSameWords nodes.now made words.now)) }
{
    let mut made = List::new(alloc);
    for word in words {
        let Some(own) = word_of(alloc, nodes, guesses, word.as_slice())? else {
            return Ok(None);
        };
        made.push(own)?;
    }
    Ok(Some(made))
}
