ghost use Rattle.std.specs.Prelude.{◌<◌, ◌≤◌, ◌^◌, MatchOption, IfSome};
ghost use Rattle.sat_trail.specs.Trail.{lits, AllAssigned, IsOpenVar, IsOpenLit};
ghost use Rattle.sat_search.specs.Order.{AssignedFrom};

use crate::heap::Heap;
use fv_text::Memory;
use sat_trail::Trail;
use std::alloc::Global;

/// A variable that isn't in the heap since the trail had so many entries.
#[derive(Debug, Clone, Copy)]
struct Taken {
    index: u32,
    len: u32,
}

/// Which variable is decided next, and how: the one that took part in most of the latest conflicts, with its last
/// value.
#[derive(Drop)]
pub struct Order {
    heap: Heap,
    /// Those that were taken from the heap, the last one at the end.
    taken: Vec<Taken>,
    /// The last value of each variable, by its index.
    phases: Vec<bool>,
    /// Where the last variable was found that isn't in the heap.
    found: u64,
}

impl Order {
    pub fn new(alloc: Global) -> Order {
        Order {
            heap: Heap::new(alloc),
            taken: Vec::new(alloc),
            phases: Vec::new(alloc),
            found: 0,
        }
    }

    /// The variables of these literals come in.
    pub fn meet(&mut self, lits: &[i64]) -> Result<(), Memory> {
        for lit in lits {
            self.heap.insert(index_of(*lit))?;
        }
        Ok(())
    }

    /// A literal of a variable that has no value.
    pub fn decide(&mut self, vars: u64, trail: &Trail) -> Option<i64>
        requires { vars < 2 ^ 63 }
        ensures { MatchOption result (AllAssigned vars (lits trail.now)) (λ lit. IsOpenLit vars (lits trail.now) lit) }
    {
        match self.next_open(vars, trail) {
            None => None,
            Some(lit) => {
                if self.phase(lit) {
                    Some(lit)
                } else {
                    Some(-lit)
                }
            }
        }
    }

    /// The most active variable that has no value; where none of the heap is, the next one of all.
    fn next_open(&mut self, vars: u64, trail: &Trail) -> Option<i64>
        requires { vars < 2 ^ 63 }
        ensures { MatchOption result (AllAssigned vars (lits trail.now)) (λ lit. IsOpenVar vars (lits trail.now) lit) }
    {
        if let Some(lit) = self.most_active(vars, trail) {
            return Some(lit);
        }
        if let Some(lit) = open_from(self.found, vars, trail) {
            self.found = index_of(lit);
            return Some(lit);
        }
        open_from(0, vars, trail)
    }

    fn most_active(&mut self, vars: u64, trail: &Trail) -> Option<i64>
        requires { vars < 2 ^ 63 }
        ensures { IfSome result (λ lit. IsOpenVar vars (lits trail.now) lit) }
    {
        for _ in 0..self.heap.len() {
            if let Some(index) = self.heap.take() {
                self.note(index, trail.len());
                if index < vars {
                    let lit = index as i64 + 1;
                    if !trail.is_assigned(lit) {
                        return Some(lit);
                    }
                }
            }
        }
        None
    }

    /// The variable isn't in the heap any more. Where memory is wanting, it doesn't come back.
    fn note(&mut self, index: u64, len: usize) {
        if let (Ok(index), Ok(len)) = (u32::try_from(index), u32::try_from(len)) {
            let _ = self.taken.push(Taken { index, len });
        }
    }

    /// The trail was cut to so many entries: those that were taken since come back.
    pub fn cut(&mut self, len: usize) {
        for _ in 0..self.taken.len() {
            match self.taken.pop() {
                None => return,
                Some(last) => {
                    if (last.len as usize) < len {
                        let _ = self.taken.push(last);
                        return;
                    }
                    let _ = self.heap.insert(last.index as u64);
                }
            }
        }
    }

    /// The variables of these literals took part in a conflict.
    pub(crate) fn bump(&mut self, lits: &[i64]) {
        for lit in lits {
            self.heap.bump(index_of(*lit));
        }
    }

    /// A conflict is over.
    pub(crate) fn decay(&mut self) {
        self.heap.decay();
    }

    fn phase(&self, lit: i64) -> bool {
        match self.phases.get(index_of(lit) as usize) {
            Some(phase) => *phase,
            None => true,
        }
    }

    /// The literal became true. Where memory is wanting, its phase isn't kept.
    pub(crate) fn set_phase(&mut self, lit: i64) {
        let _ = self.keep_phase(lit);
    }

    fn keep_phase(&mut self, lit: i64) -> Result<(), Memory> {
        let at = index_of(lit) as usize;
        if at >= self.phases.len() {
            self.phases.resize(at.saturating_add(1), true)?;
        }
        if let Some(phase) = self.phases.get_mut(at) {
            *phase = lit > 0;
        }
        Ok(())
    }
}

/// The variable that has no value, from an index on.
fn open_from(start: u64, vars: u64, trail: &Trail) -> Option<i64>
    requires { vars < 2 ^ 63 }
    ensures { MatchOption result (AssignedFrom start vars (lits trail.now))
        (λ lit. IsOpenVar vars (lits trail.now) lit) }
{
    for index in start..vars {
        let lit = index as i64 + 1;
        if !trail.is_assigned(lit) {
            return Some(lit);
        }
    }
    None
}

fn index_of(lit: i64) -> u64 {
    lit.unsigned_abs().saturating_sub(1)
}
