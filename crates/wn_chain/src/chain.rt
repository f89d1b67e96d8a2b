//! A memory as a chain of writes.
use crate::read::read_written;
use fv_text::{List, Memory};
use std::alloc::Global;
use wn_net::{MemWrite, Net, NodeId};

/// A memory as the words that it begins with and the writes since: in each cycle of its net, a list of words.
#[derive(Debug, Drop)]
pub struct Chain {
    /// A node for each word, at least one.
    pub(crate) words: List<NodeId>,
    /// The oldest first. They act one after the other.
    pub(crate) writes: List<MemWrite>,
}

impl Chain {
    ghost use Rattle.std.specs.Prelude.{◌≡◌, ◌≤◌, [], ◌∷◌, ◌++◌, length, IfOk, OnOk, OnErr};
    ghost use Rattle.wn_net.specs.Value.{Given, word_at};
    ghost use Rattle.wn_net.specs.Given.{IsGiven};
    ghost use Rattle.wn_net.specs.Net.{IsNode, IsNodeOf, IsWriteOf, value_at};
    ghost use Rattle.wn_net.specs.Changes.{AddsNodes};
    ghost use Rattle.wn_mem.specs.Words.{AreWords, numbers_of, words_width};
    ghost use Rattle.wn_chain.specs.Writes.{written_at};
    ghost use Rattle.wn_chain.specs.Chains.{IsChain, words_in};

    /// A chain without writes.
    pub fn start(alloc: Global, words: List<NodeId>) -> Chain
        requires { 1 ≤ length words }
        ensures words { result.words ≡ words }
        ensures none { result.writes ≡ [] }
    {
        Chain {
            words,
            writes: List::new(alloc),
        }
    }

    /// An equal chain, which shares nothing with this one.
    pub fn copy(&self, alloc: Global) -> Result<Chain, Memory>
        ensures { IfOk result (λ chain. chain ≡ self.now) }
    {
        let words = Vec::from_slice(alloc, self.words.as_slice())?;
        let writes = Vec::from_slice(alloc, self.writes.as_slice())?;
        Ok(Chain {
            words: List::from_vec(words),
            writes: List::from_vec(writes),
        })
    }

    /// One more write, the newest. After want of memory the chain is as before.
    pub fn push(&mut self, net: &Net, write: &MemWrite) -> Result<(), Memory>
        requires chain { IsChain net.now self.old }
        requires write { IsWriteOf net.now (words_width net.now self.old.words) write.now }
        ensures chain { OnOk result (IsChain net.now self.new) }
        ensures list { OnOk result ((g : Given) → words_in net.now g self.new
            ≡ written_at net.now g (words_width net.now self.old.words) (words_in net.now g self.old) write.now) }
        ensures exact { OnOk result (self.new ≡ record self.old { writes = self.old.writes ++ write.now ∷ [] }) }
        ensures same { OnErr result (self.new ≡ self.old) }
    {
        let _ = net.nodes();
        self.writes.push(*write)?;
        Ok(())
    }

    /// The word at the address after all writes; 0 past the last word. What is made looks at the newest write first and
    /// at the words that the chain begins with last.
    pub fn read(&self, net: &mut Net, addr: NodeId) -> Result<NodeId, Memory>
        requires chain { IsChain net.old self.now }
        requires addr { IsNode net.old addr }
        ensures adds { AddsNodes net.old net.new }
        ensures there { IfOk result (IsNodeOf net.new (words_width net.old self.now.words)) }
        ensures value { IfOk result (λ id. (g : Given) → IsGiven net.old g → value_at net.new g id
            ≡ word_at (words_in net.old g self.now) (value_at net.old g addr)) }
        ensures same { OnErr result (net.new ≡ net.old) }
    {
        let nodes = net.nodes().len();
        let regs = net.regs().len();
        match read_written(net, self.words.as_slice(), self.writes.as_slice(), addr) {
            Ok(id) => Ok(id),
            Err(fault) => {
                net.cut(nodes, regs);
                Err(fault)
            }
        }
    }
}
