use crate::codes::{index_of, narrow};
use crate::gave_up::GaveUp;
use crate::heap::Heap;
use crate::trail::{Trail, Value};
use std::alloc::Global;

/// Which variable is decided next, and how: the one that took part in most of the latest conflicts, with its last
/// value.
#[derive(Drop)]
pub(crate) struct Decisions {
    heap: Heap,
    /// Whether a variable was true last, by its index.
    phases: Vec<bool>,
}

impl Decisions {
    /// For so many variables.
    pub(crate) fn new(alloc: Global, vars: usize) -> Result<Decisions, GaveUp> {
        let mut phases = Vec::new(alloc);
        phases.resize(vars, false)?;
        Ok(Decisions {
            heap: Heap::new(alloc, vars)?,
            phases,
        })
    }

    /// The literal's variable may be decided.
    pub(crate) fn meet(&mut self, code: u32) -> Result<(), GaveUp> {
        self.heap.insert(index_of(code))
    }

    /// The literal isn't true any more; its variable may be decided again.
    pub(crate) fn release(&mut self, code: u32) -> Result<(), GaveUp> {
        if let Some(phase) = self.phases.get_mut(index_of(code)) {
            *phase = code % 2 == 0;
        }
        self.heap.insert(index_of(code))
    }

    /// The variable took part in a conflict.
    pub(crate) fn bump(&mut self, index: usize) {
        self.heap.bump(index);
    }

    /// A conflict is over.
    pub(crate) fn decay(&mut self) {
        self.heap.decay();
    }

    /// The literal to decide, if one is open.
    pub(crate) fn next(&mut self, trail: &Trail) -> Option<u32> {
        for _ in 0..usize::MAX {
            let index = self.heap.take()?;
            let code = narrow(index).saturating_mul(2);
            if trail.value(code) == Value::Open {
                return Some(if self.phase(index) { code } else { code | 1 });
            }
        }
        None
    }

    fn phase(&self, index: usize) -> bool {
        match self.phases.get(index) {
            Some(phase) => *phase,
            None => false,
        }
    }
}
