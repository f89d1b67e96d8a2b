//! Words that are those of a memory of the net.
ghost use Rattle.std.specs.Prelude.{◌≡◌, ◌<◌, ◌≤◌, ℕ, true, length, slice_index, IfSome};
ghost use Rattle.wn_net.specs.Value.{Given, word_at, words_of};
ghost use Rattle.wn_net.specs.Changes.{mem_width};
ghost use Rattle.wn_net.specs.Net.{IsNode, AreNodes, value_at, width_at};
ghost use Rattle.wn_mem.specs.Words.{AreWordsOf};

use wn_net::{Net, Node, NodeId};

/// The memory and the word of which a node is the number; none where it is no word at a constant address.
fn word_of(net: &Net, id: NodeId) -> Option<(u32, u128)>
    requires { IsNode net.now id }
    ensures there { IfSome result (λ w. w.0 < length net.now.mems) }
    ensures width { IfSome result (λ w. width_at net.now id ≡ mem_width net.now w.0) }
    ensures value { IfSome result (λ w. (g : Given) → value_at net.now g id ≡ word_at (words_of g w.0) w.1) }
{
    let nodes = net.nodes();
    if let Node::Read(mem, addr) = nodes[id as usize] {
        if let Some(Node::Konst(number)) = nodes.get(addr as usize) {
            return Some((mem, number.value()));
        }
    }
    None
}

/// Whether a node is the word of a memory with this number.
fn is_word(net: &Net, id: NodeId, mem: u32, number: usize) -> bool
    requires { IsNode net.now id }
    ensures { result ≡ true → (g : Given) → value_at net.now g id ≡ word_at (words_of g mem) number }
{
    match word_of(net, id) {
        Some((memory, word)) => memory == mem && word == number as u128,
        None => false,
    }
}

/// Whether the nodes are the words of a memory from the first on.
fn are_words_of(net: &Net, words: &[NodeId], mem: u32) -> bool
    requires { AreNodes net.now words.now }
    ensures { result ≡ true → (g : Given) (k : ℕ) → k < length words.now
        → value_at net.now g (slice_index words.now k) ≡ word_at (words_of g mem) k }
{
    for number in 0..words.len() {
        if !is_word(net, words[number], mem, number) {
            return false;
        }
    }
    true
}

/// The memory of which these nodes are all words in their order, as they stand in the cycle; none where they aren't.
pub fn memory_of(net: &Net, words: &[NodeId]) -> Option<u32>
    requires some { 1 ≤ length words.now }
    requires words { AreNodes net.now words.now }
    ensures { IfSome result (AreWordsOf net.now words.now) }
{
    let (mem, _) = word_of(net, words[0])?;
    let memory = &net.mems()[mem as usize];
    if memory.words as usize != words.len() || !are_words_of(net, words, mem) {
        return None;
    }
    Some(mem)
}
