//! Ranks of nodes by a walk that keeps its path as groups (Gabow, 2000): nodes that lead to one another have one rank,
//! and no node leads to one of a higher rank. No clause says so: whoever relies on it looks whether it is so.

use fv_text::{List, Memory};
use std::alloc::Global;

/// A node on the path, and which of its targets comes next.
#[derive(Debug, Clone, Copy)]
struct Step {
    node: u32,
    next: usize,
}

/// How far a node has come.
#[derive(Debug, Clone, Copy, PartialEq, Eq)]
enum Place {
    New,
    /// It stands there among the nodes without a rank.
    Open(usize),
    Done,
}

#[derive(Drop)]
struct Groups {
    places: Vec<Place>,
    /// The way from the node that the walk began with.
    steps: Vec<Step>,
    /// The nodes without a rank, in the order in which they were met.
    open: Vec<u32>,
    /// Where each group of them begins. The nodes of a group lead to one another.
    starts: Vec<usize>,
    ranks: Vec<u32>,
    /// How many groups have a rank.
    count: u32,
    /// No node before this one is new.
    begun: u32,
}

impl Groups {
    fn new(alloc: Global, nodes: usize) -> Result<Groups, Memory> {
        Ok(Groups {
            places: vec![in alloc; Place::New; nodes]?,
            steps: Vec::new(alloc),
            open: Vec::new(alloc),
            starts: Vec::new(alloc),
            ranks: vec![in alloc; 0u32; nodes]?,
            count: 0,
            begun: 0,
        })
    }

    fn place(&self, node: u32) -> Place {
        match self.places.get(node as usize) {
            Some(place) => *place,
            None => Place::Done,
        }
    }

    fn set_place(&mut self, node: u32, place: Place) {
        if let Some(kept) = self.places.get_mut(node as usize) {
            *kept = place;
        }
    }

    /// Walks to a new node, which is a group of its own.
    fn enter(&mut self, node: u32) -> Result<(), Memory> {
        let place = self.open.len();
        self.set_place(node, Place::Open(place));
        self.open.push(node)?;
        self.starts.push(place)?;
        self.steps.push(Step { node, next: 0 })?;
        Ok(())
    }

    /// Joins the groups from this place on: the last node leads to it.
    fn join(&mut self, place: usize) {
        for _ in 0..self.starts.len() {
            if self.last_start() <= place {
                return;
            }
            let _last = self.starts.pop();
        }
    }

    /// Where the last group begins.
    fn last_start(&self) -> usize {
        match self.starts.last() {
            Some(start) => *start,
            None => 0,
        }
    }

    /// Leaves a node, all of whose targets were looked at. Its group gets its rank where it began with this node.
    fn leave(&mut self, node: u32) {
        let Place::Open(place) = self.place(node) else {
            return;
        };
        if self.last_start() < place {
            return;
        }
        let _last = self.starts.pop();
        self.close(place);
    }

    /// The nodes from this place on get the next rank.
    fn close(&mut self, place: usize) {
        for _ in 0..self.open.len() {
            if self.open.len() <= place {
                break;
            }
            self.rank_last();
        }
        self.count = self.count.saturating_add(1);
    }

    fn rank_last(&mut self) {
        let Some(node) = self.open.pop() else {
            return;
        };
        self.set_place(node, Place::Done);
        let count = self.count;
        if let Some(rank) = self.ranks.get_mut(node as usize) {
            *rank = count;
        }
    }

    /// Follows one edge.
    fn follow(&mut self, target: u32) -> Result<(), Memory> {
        match self.place(target) {
            Place::New => self.enter(target),
            Place::Open(place) => {
                self.join(place);
                Ok(())
            }
            Place::Done => Ok(()),
        }
    }

    /// Begins with the next node, if it is new.
    fn begin(&mut self) -> Result<(), Memory> {
        let node = self.begun;
        self.begun = node.saturating_add(1);
        if self.place(node) == Place::New {
            self.enter(node)?;
        }
        Ok(())
    }

    /// Follows one edge, leaves one node, or begins with one.
    fn turn(&mut self, graph: &[List<u32>]) -> Result<(), Memory> {
        let Some(step) = self.steps.pop() else {
            return self.begin();
        };
        match target_at(graph, step) {
            None => {
                self.leave(step.node);
                Ok(())
            }
            Some(target) => self.go_on(step, target),
        }
    }

    fn go_on(&mut self, step: Step, target: u32) -> Result<(), Memory> {
        self.steps.push(Step {
            node: step.node,
            next: step.next.saturating_add(1),
        })?;
        self.follow(target)
    }
}

fn target_at(graph: &[List<u32>], step: Step) -> Option<u32> {
    graph
        .get(step.node as usize)?
        .as_slice()
        .get(step.next)
        .copied()
}

/// How many turns a walk takes at most: each node is begun with or passed over, and left, and each edge is followed.
fn turns(graph: &[List<u32>]) -> usize {
    let mut turns = 0usize;
    for row in graph {
        turns = turns.saturating_add(row.len()).saturating_add(2);
    }
    turns
}

/// A rank for each node, as far as memory and a count of turns that stands still allow.
pub(crate) fn guessed_ranks(alloc: Global, graph: &[List<u32>]) -> Result<Vec<u32>, Memory> {
    let mut groups = Groups::new(alloc, graph.len())?;
    for _ in 0..turns(graph) {
        groups.turn(graph)?;
    }
    Ok(groups.ranks)
}
