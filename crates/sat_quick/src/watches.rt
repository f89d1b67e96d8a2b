use crate::gave_up::GaveUp;
use std::alloc::Global;

/// A clause of three literals or more that is looked at when one of its literals becomes false. Where the blocker, a
/// literal of it, is true, there is nothing to do.
#[derive(Debug, Clone, Copy)]
pub(crate) struct Watch {
    pub at: u32,
    pub blocker: u32,
}

/// A clause of two literals, as the other one sees it.
#[derive(Debug, Clone, Copy)]
pub(crate) struct Short {
    pub id: u32,
    pub other: u32,
}

/// What is looked at when a literal becomes false, by its code.
#[derive(Drop)]
pub(crate) struct Watches {
    alloc: Global,
    long: Vec<Vec<Watch>>,
    short: Vec<Vec<Short>>,
}

impl Watches {
    /// For so many codes.
    pub(crate) fn new(alloc: Global, codes: usize) -> Result<Watches, GaveUp> {
        let mut long = Vec::with_capacity(alloc, codes)?;
        let mut short = Vec::with_capacity(alloc, codes)?;
        for _ in 0..codes {
            long.push(Vec::new(alloc))?;
            short.push(Vec::new(alloc))?;
        }
        Ok(Watches { alloc, long, short })
    }

    #[inline]
    pub(crate) fn push(&mut self, code: u32, watch: Watch) -> Result<(), GaveUp> {
        if let Some(list) = self.long.get_mut(code as usize) {
            list.push(watch)?;
        }
        Ok(())
    }

    /// Takes the list of the literal out.
    #[inline]
    pub(crate) fn take(&mut self, code: u32) -> Vec<Watch> {
        match self.long.get_mut(code as usize) {
            Some(list) => std::mem::replace(list, Vec::new(self.alloc)),
            None => Vec::new(self.alloc),
        }
    }

    /// The list comes back. Nothing came into the literal's list since.
    #[inline]
    pub(crate) fn put_back(&mut self, code: u32, watches: Vec<Watch>) {
        if let Some(list) = self.long.get_mut(code as usize) {
            *list = watches;
        }
    }

    /// Adds a clause of two literals.
    pub(crate) fn add_short(&mut self, id: u32, one: u32, other: u32) -> Result<(), GaveUp> {
        if let Some(list) = self.short.get_mut(one as usize) {
            list.push(Short { id, other })?;
        }
        if let Some(list) = self.short.get_mut(other as usize) {
            list.push(Short { id, other: one })?;
        }
        Ok(())
    }

    #[inline]
    pub(crate) fn shorts(&self, code: u32) -> &[Short] {
        match self.short.get(code as usize) {
            Some(list) => list.as_slice(),
            None => &[],
        }
    }

    /// Forgets the clauses of three literals or more.
    pub(crate) fn forget_long(&mut self) {
        for list in self.long.iter_mut() {
            list.clear();
        }
    }
}
