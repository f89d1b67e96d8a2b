use crate::codes::{flip, index_of, narrow};
use crate::gave_up::GaveUp;
use crate::reason::Reason;
use std::alloc::Global;

/// What is known of a literal.
#[derive(Debug, Clone, Copy, PartialEq, Eq)]
pub(crate) enum Value {
    Open,
    True,
    False,
}

/// How a variable came to its value. Without one it means nothing.
#[derive(Debug, Clone, Copy)]
pub(crate) struct Cause {
    pub reason: Reason,
    /// How many decisions came before, its own included.
    pub level: u32,
    /// Its place on the trail.
    pub place: u32,
}

const NO_CAUSE: Cause = Cause {
    reason: Reason::Decision,
    level: 0,
    place: 0,
};

/// The literals that are true, in the order in which they became so. Literals are codes.
#[derive(Drop)]
pub(crate) struct Trail {
    lits: Vec<u32>,
    /// Where the levels from 1 on begin.
    starts: Vec<usize>,
    /// By code.
    values: Vec<Value>,
    /// By the variables' indexes.
    causes: Vec<Cause>,
    /// So many literals were looked at by propagation.
    head: usize,
}

impl Trail {
    /// For so many variables.
    pub(crate) fn new(alloc: Global, vars: usize) -> Result<Trail, GaveUp> {
        let mut values = Vec::new(alloc);
        values.resize(vars.saturating_mul(2), Value::Open)?;
        let mut causes = Vec::new(alloc);
        causes.resize(vars, NO_CAUSE)?;
        Ok(Trail {
            lits: Vec::with_capacity(alloc, vars)?,
            starts: Vec::new(alloc),
            values,
            causes,
            head: 0,
        })
    }

    #[inline]
    pub(crate) fn value(&self, code: u32) -> Value {
        match self.values.get(code as usize) {
            Some(value) => *value,
            None => Value::Open,
        }
    }

    #[inline]
    pub(crate) fn cause(&self, index: usize) -> Cause {
        match self.causes.get(index) {
            Some(cause) => *cause,
            None => NO_CAUSE,
        }
    }

    /// How many decisions there are.
    #[inline]
    pub(crate) fn level(&self) -> u32 {
        narrow(self.starts.len())
    }

    pub(crate) fn len(&self) -> usize {
        self.lits.len()
    }

    pub(crate) fn lit_at(&self, place: usize) -> Option<u32> {
        match self.lits.get(place) {
            Some(lit) => Some(*lit),
            None => None,
        }
    }

    /// The next literal that propagation hasn't looked at yet, and from now on has.
    #[inline]
    pub(crate) fn next(&mut self) -> Option<u32> {
        let lit = *self.lits.get(self.head)?;
        self.head = self.head.saturating_add(1);
        Some(lit)
    }

    fn set(&mut self, code: u32, value: Value) {
        if let Some(set) = self.values.get_mut(code as usize) {
            *set = value;
        }
    }

    /// An open literal becomes true.
    #[inline]
    pub(crate) fn push(&mut self, code: u32, reason: Reason) -> Result<(), GaveUp> {
        self.set(code, Value::True);
        self.set(flip(code), Value::False);
        let cause = Cause {
            reason,
            level: self.level(),
            place: narrow(self.lits.len()),
        };
        if let Some(set) = self.causes.get_mut(index_of(code)) {
            *set = cause;
        }
        self.lits.push(code)?;
        Ok(())
    }

    /// Another reason for the value of a variable.
    pub(crate) fn set_reason(&mut self, index: usize, reason: Reason) {
        if let Some(cause) = self.causes.get_mut(index) {
            cause.reason = reason;
        }
    }

    /// The literal is decided: a new level begins.
    pub(crate) fn decide(&mut self, code: u32) -> Result<(), GaveUp> {
        self.starts.push(self.lits.len())?;
        self.push(code, Reason::Decision)
    }

    /// Takes the last literal off, if it stands above the level.
    pub(crate) fn pop_above(&mut self, level: u32) -> Option<u32> {
        let start = *self.starts.get(level as usize)?;
        if self.lits.len() <= start {
            return None;
        }
        let lit = self.lits.pop()?;
        self.set(lit, Value::Open);
        self.set(flip(lit), Value::Open);
        Some(lit)
    }

    /// No level above this one is left. Its literals were taken off.
    pub(crate) fn end_above(&mut self, level: u32) {
        self.starts.truncate(level as usize);
        if self.head > self.lits.len() {
            self.head = self.lits.len();
        }
    }
}
