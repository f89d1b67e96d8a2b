//! Words that need no gate: their bits are those of other words.
ghost use Rattle.std.specs.Prelude.{◌≡◌, ℕ, ◌≤◌, ◌<◌, Bool, not, List, length, map, replicate, IfOk};
ghost use Rattle.bb_aig.specs.Graph as graph_spec;
ghost use Rattle.bb_aig.specs.Graph.{IsLit, lit_at};
ghost use Rattle.bb_aig.specs.declared.node.AigNode.{AigNode};
ghost use Rattle.bb_aig.specs.Bits as bits_spec;
ghost use Rattle.bb_aig.specs.Gates.{AreLits, AreMade, bits};

use bb_aig::{Lit, complement};
use fv_text::Memory;
use std::alloc::Global;

/// The literal so many times.
pub(crate) fn repeated(alloc: Global, lit: Lit, count: usize) -> Result<Vec<Lit>, Memory>
    ensures { IfOk result (λ r. r.items ≡ replicate count lit) }
{
    let made = vec![in alloc; lit; count]?;
    Ok(made)
}

/// Each bit turned.
pub(crate) fn turned(alloc: Global, word: &[Lit]) -> Result<Vec<Lit>, Memory>
    ensures { IfOk result (λ r. r.items ≡ map graph_spec.complement word.now) }
{
    let made: Vec<Lit> = word.iter().map(|lit| complement(*lit)).collect(alloc)?;
    Ok(made)
}

/// The highest bit.
pub(crate) fn top(word: &[Lit]) -> Lit
    requires { 1 ≤ length word.now }
    ensures there { (graph : List AigNode) → AreLits graph word.now → IsLit graph result }
    ensures value { (graph : List AigNode) (x : ℕ → Bool)
        → lit_at graph x result ≡ bits_spec.top (bits graph x word.now) }
{
    word[word.len() - 1]
}

/// The word with its highest bit turned.
pub(crate) fn with_top_turned(alloc: Global, word: &[Lit]) -> Result<Vec<Lit>, Memory>
    requires { 1 ≤ length word.now }
    ensures { IfOk result (λ r. (graph : List AigNode) → AreLits graph word.now
        → AreMade graph (λ x. bits_spec.turned_top (bits graph x word.now)) r.items) }
{
    let last = word.len() - 1;
    let mut made = Vec::from_slice(alloc, &word[..last])?;
    made.push(complement(word[last]))?;
    Ok(made)
}
