//! The net of a line, the numbers in its registers and memories, and what a line says.

use crate::part::{node_at, numbers_from, word};
use crate::{chain, halves, make, rebuild, runs, show, store};
use fv_text::{List, Memory};
use std::alloc::Global;
use wn_net::{Net, NodeId, State};

#[derive(Drop)]
pub(crate) struct Bench {
    alloc: Global,
    net: Net,
    state: State,
}

impl Bench {
    pub(crate) fn new(alloc: Global) -> Bench {
        Bench {
            alloc,
            net: Net::new(alloc),
            state: State {
                regs: List::new(alloc),
                mems: List::new(alloc),
            },
        }
    }

    /// What the parts of a line say, with `;` between two.
    pub(crate) fn answer(&mut self, line: &str) -> Result<String, Memory> {
        let mut said = String::new(self.alloc);
        for part in line.split(';') {
            self.put_part(&mut said, part.trim())?;
        }
        Ok(said)
    }

    /// Adds what a part says; nothing where it is one that makes a node and fits.
    fn put_part(&mut self, said: &mut String, part: &str) -> Result<(), Memory> {
        let mut answer = String::new(self.alloc);
        let fits = self.part(&mut answer, part)?;
        put(said, if fits { answer.as_str() } else { "refused" })
    }

    /// Does what a part says, and writes its answer. Whether it fits the net, as the methods behind this one say too.
    fn part(&mut self, out: &mut String, part: &str) -> Result<bool, Memory> {
        match word(part, 0) {
            "regs" => self.set_regs(part),
            "words" => self.add_words(part),
            "copy" => self.copied(),
            "share" => self.shared(out),
            "cone" => self.coned(out, part),
            "chain" => chain::make(self.alloc, &mut self.net, part),
            "node" => self.told(out, node_at(part, 1)),
            "parts" => self.told_parts(out),
            "undo" => self.undone(out, node_at(part, 1)),
            "eval" => self.evaluated(out, part),
            "step" => self.stepped(out, part),
            "sources" | "places" | "run" | "gates" | "clauses" | "cuts" | "models" => runs::answer(
                self.alloc, &self.net, out, part,
            ),
            "base" | "later" | "base-sources" | "later-sources" => halves::answer(
                self.alloc, &self.net, out, part,
            ),
            _ => self.made(part),
        }
    }

    fn made(&mut self, part: &str) -> Result<bool, Memory> {
        match store::change(self.alloc, &mut self.net, part)? {
            Some(fits) => Ok(fits),
            None => make::node(&mut self.net, part),
        }
    }

    fn set_regs(&mut self, part: &str) -> Result<bool, Memory> {
        self.state.regs = List::from_vec(numbers_from(self.alloc, part, 1)?);
        Ok(true)
    }

    fn add_words(&mut self, part: &str) -> Result<bool, Memory> {
        let words = numbers_from(self.alloc, part, 1)?;
        self.state.mems.push(List::from_vec(words))?;
        Ok(true)
    }

    /// The rest of the line is about a copy.
    fn copied(&mut self) -> Result<bool, Memory> {
        self.net = self.net.copy()?;
        Ok(true)
    }

    /// The rest of the line is about the net with equal nodes once.
    fn shared(&mut self, out: &mut String) -> Result<bool, Memory> {
        let Some((net, table)) = rebuild::shared(self.alloc, &self.net)? else {
            return Ok(false);
        };
        for (index, id) in table.as_slice().iter().enumerate() {
            let blank = if index > 0 { " " } else { "" };
            write!(out, "{blank}{id}")?;
        }
        self.net = net;
        Ok(true)
    }

    /// The rest of the line is about the part on which some nodes rest.
    fn coned(&mut self, out: &mut String, part: &str) -> Result<bool, Memory> {
        match rebuild::part_of(self.alloc, &self.net, out, part)? {
            Some(net) => {
                self.net = net;
                Ok(true)
            }
            None => Ok(false),
        }
    }

    fn told(&self, out: &mut String, node: NodeId) -> Result<bool, Memory> {
        match self.net.nodes().get(node as usize) {
            Some(node) => {
                rebuild::put_node(out, *node)?;
                Ok(true)
            }
            None => Ok(false),
        }
    }

    fn told_parts(&self, out: &mut String) -> Result<bool, Memory> {
        rebuild::put_parts(out, &self.net)?;
        Ok(true)
    }

    /// The nodes with one more, and without it again.
    fn undone(&mut self, out: &mut String, a: NodeId) -> Result<bool, Memory> {
        if !self.net.has(a) {
            return Ok(false);
        }
        let nodes = self.net.nodes().len();
        let regs = self.net.regs().len();
        self.net.not(a)?;
        let more = self.net.nodes().len();
        self.net.cut(nodes, regs);
        let fewer = self.net.nodes().len();
        write!(out, "{more} {fewer}")?;
        Ok(true)
    }

    fn evaluated(&self, out: &mut String, part: &str) -> Result<bool, Memory> {
        let inputs = numbers_from(self.alloc, part, 2)?;
        if !self.net.admits(inputs.as_slice(), &self.state) {
            return Ok(false);
        }
        let mut values = vec![in self.alloc; 0u128; self.net.nodes().len()]?;
        self.net
            .eval(inputs.as_slice(), &self.state, values.as_mut_slice());
        self.put_value(out, self.named(part), values.as_slice())
    }

    /// The node that the second word names by its number, or as the last.
    fn named(&self, part: &str) -> NodeId {
        match word(part, 1) {
            "last" => (self.net.nodes().len() as u64).wrapping_sub(1),
            _ => node_at(part, 1),
        }
    }

    fn stepped(&mut self, out: &mut String, part: &str) -> Result<bool, Memory> {
        let inputs = numbers_from(self.alloc, part, 2)?;
        if !self.net.admits(inputs.as_slice(), &self.state) {
            return Ok(false);
        }
        let mut values = vec![in self.alloc; 0u128; self.net.nodes().len()]?;
        self.net
            .step(inputs.as_slice(), &mut self.state, values.as_mut_slice());
        self.put_cycle(out, node_at(part, 1), values.as_slice())
    }

    /// A node, and the registers and memories behind the cycle.
    fn put_cycle(&self, out: &mut String, node: NodeId, values: &[u128]) -> Result<bool, Memory> {
        if !self.put_value(out, node, values)? {
            return Ok(false);
        }
        out.push_str(" ")?;
        show::put_numbers(out, self.state.regs.as_slice())?;
        for words in self.state.mems.as_slice() {
            show::put_numbers(out, words.as_slice())?;
        }
        Ok(true)
    }

    /// Width and number of a node.
    fn put_value(&self, out: &mut String, node: NodeId, values: &[u128]) -> Result<bool, Memory> {
        if !self.net.has(node) {
            return Ok(false);
        }
        let Some(value) = values.get(node as usize) else {
            return Ok(false);
        };
        write!(out, "{} ", self.net.width(node))?;
        show::put_number(out, *value)?;
        Ok(true)
    }
}

/// Adds an answer, with `;` before it where another stands there.
fn put(said: &mut String, answer: &str) -> Result<(), Memory> {
    if !said.is_empty() && !answer.is_empty() {
        said.push_str("; ")?;
    }
    said.push_str(answer)?;
    Ok(())
}
